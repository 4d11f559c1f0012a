//! Signature operations that are known only with the coins.

ghost use Rattle.std.specs.Prelude.{◌≡◌, ◌≤◌, ◌-◌, ◌^◌, min, length};
ghost use Rattle.connect.specs.Turns.{inner_sigops};

use coins::Coin;
use script::p2sh_sigops;
use txn::Tx;

/// The signature operations of a transaction's inner scripts (BIP 16), by the coins that it spends. The sum
/// stops at the highest `u128`, far above what a block may have.
pub(crate) fn inner_sigops(coins: &[Coin], tx: &Tx) -> u128
    requires { length coins.now ≤ length tx.now.inputs }
    ensures { result ≡ min (inner_sigops coins.now tx.now) (2 ^ 128 - 1) }
{
    let mut sum = 0u128;
    for index in 0..coins.len() {
        let input = &tx.inputs.as_slice()[index];
        sum = sum.saturating_add(p2sh_sigops(
            input.script.as_slice(),
            coins[index].script.as_slice(),
        ));
    }
    sum
}
