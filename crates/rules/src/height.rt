//! The height in a coinbase (BIP 34).

ghost use Rattle.std.specs.Prelude.{◌≡◌, ◌==◌};
ghost use Rattle.std.specs.List.{starts_with};
ghost use Rattle.rules.specs.Context.{height_push};

use script::opcode::OP_1;

/// Whether a script begins with the push of a height (BIP 34).
pub(crate) fn begins_with_height(script: &[u8], height: u32) -> bool
    ensures { result ≡ starts_with (λ x y. x == y) script.now (height_push height) }
{
    let [a, b, c, d] = height.to_le_bytes();
    match height {
        0 => script.starts_with(&[0]),
        1..=16 => script.starts_with(&[OP_1 - 1 + a]),
        17..0x80 => script.starts_with(&[1, a]),
        0x80..0x8000 => script.starts_with(&[2, a, b]),
        0x8000..0x80_0000 => script.starts_with(&[3, a, b, c]),
        0x80_0000..0x8000_0000 => script.starts_with(&[4, a, b, c, d]),
        // A byte more, so that the highest bit isn't a sign.
        _ => script.starts_with(&[5, a, b, c, d, 0]),
    }
}
