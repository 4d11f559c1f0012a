//! What a signature signs, by its hash type.

ghost use Rattle.std.specs.Prelude.{◌≡◌, ◌↔◌, IsTrue, false};
ghost use Rattle.sighash.specs.Kind as kinds;

/// Whether no output is signed (NONE).
pub fn is_none(kind: u32) -> bool
    ensures { result ≡ kinds.is_none kind }
{
    kind % 32 == 2
}

/// Whether one output is signed, of the input's number (SINGLE).
pub fn is_single(kind: u32) -> bool
    ensures { result ≡ kinds.is_single kind }
{
    kind % 32 == 3
}

/// Whether the other inputs' sequences aren't signed.
pub fn frees_sequences(kind: u32) -> bool
    ensures { result ≡ kinds.frees_sequences kind }
{
    is_none(kind) || is_single(kind)
}

/// Whether no other input is signed (ANYONECANPAY).
pub fn is_alone(kind: u32) -> bool
    ensures { result ≡ kinds.is_alone kind }
{
    kind / 128 % 2 == 1
}

/// Whether all inputs are signed, with their sequences.
pub fn signs_inputs(kind: u32) -> bool
    ensures { IsTrue result ↔
        ((kinds.is_alone kind ≡ false) × (kinds.frees_sequences kind ≡ false)) }
{
    !is_alone(kind) && !frees_sequences(kind)
}
