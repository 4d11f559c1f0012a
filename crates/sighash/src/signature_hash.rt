//! The digest that a signature signs.

ghost use Rattle.std.specs.Prelude.{◌≡◌, ◌<◌, length};
ghost use Rattle.std.specs.List.{concat};
ghost use Rattle.script.specs.Removal.{bytes_of};
ghost use Rattle.sighash.specs.Digest.{digest_of};

use crate::hasher_input::{feed_signed_inputs, feed_signed_outputs};
use crate::kind::is_single;
use hash::finish;
use sha2::{Digest, Sha256};
use txn::Tx;

/// What a signature of this input signs, for a hash type of four bytes: the code is the pieces joined.
///
/// It is streamed into the hasher: the transaction isn't copied, and no memory is taken. Where the hash
/// type is SINGLE and there is no output of the input's number, it is the number 1, as Bitcoin has it.
pub fn digest(tx: &Tx, input: usize, code: &[&[u8]], kind: u32) -> [u8; 32]
    requires { input < length tx.now.inputs }
    ensures { result ≡ digest_of tx.now input (concat (bytes_of code.now)) kind }
{
    let outputs = tx.outputs.as_slice();
    if is_single(kind) && input >= outputs.len() {
        let mut one = [0; 32];
        one[0] = 1;
        return one;
    }
    let mut hasher = Sha256::new();
    hasher.update(tx.version.to_le_bytes());
    feed_signed_inputs(&mut hasher, tx.inputs.as_slice(), input, code, kind);
    feed_signed_outputs(&mut hasher, outputs, input, kind);
    hasher.update(tx.lock_time.to_le_bytes());
    hasher.update(kind.to_le_bytes());
    finish(hasher)
}
