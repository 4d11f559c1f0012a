//! The line of a signature, as the text of a table has it.

ghost use Rattle.std.specs.Prelude.{◌≡◌, IfOk};
ghost use Rattle.std.specs.String.{string_bytes};
ghost use Rattle.serving.specs.Answers.{triple_line, word};

use signatures::KeptTriple;
use std::alloc::{AllocError, Global};

/// The three words of a table's line.
pub fn triple_line(alloc: Global, triple: &KeptTriple) -> Result<String, AllocError>
    ensures { IfOk result (λ line. string_bytes line ≡ triple_line triple.now) }
{
    let mut line = word(alloc, triple.key())?;
    line.push_str(" ")?;
    line.push_str(word(alloc, triple.signature())?.as_str())?;
    line.push_str(" ")?;
    line.push_str(hex::encode(alloc, *triple.digest())?.as_str())?;
    Ok(line)
}

/// Bytes in lower-case hexadecimal, or `-` for none.
fn word(alloc: Global, bytes: &[u8]) -> Result<String, AllocError>
    ensures { IfOk result (λ text. string_bytes text ≡ word bytes.now) }
{
    if bytes.is_empty() {
        return String::from_str(alloc, "-");
    }
    hex::encode(alloc, bytes)
}
