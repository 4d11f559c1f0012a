//! The strict encoding of signatures (BIP 66).

ghost use Rattle.std.specs.Prelude.{◌≡◌, ◌↔◌, IsTrue};
ghost use Rattle.signatures.specs.Shape.{IsInteger, IsSignature, IsStrict};
ghost use Rattle.signatures.specs.computed.Shape.{is_strict};

/// The tag of a sequence of values.
const SEQUENCE: u8 = 0x30;

/// The tag of an integer.
const INTEGER: u8 = 0x02;

/// The length in bytes of the longest signature with its hash type.
const LONGEST: usize = 73;

/// Whether a signature with its hash type has the strict encoding of BIP 66, or no byte at all
/// (Bitcoin Core's `IsValidSignatureEncoding`).
pub fn der_shape(bytes: &[u8]) -> bool
    ensures shape { IsTrue result ↔ IsStrict bytes.now }
    // The same by the test, for callers that compute.
    ensures test { result ≡ is_strict bytes.now }
{
    bytes.is_empty() || is_signature(bytes)
}

/// The bytes are `30`, a length, `02`, a length, R, `02`, a length, S and the hash type.
fn is_signature(bytes: &[u8]) -> bool
    ensures { IsTrue result ↔ IsSignature bytes.now }
{
    let len = bytes.len();
    if len < 9 || len > LONGEST {
        return false;
    }
    if bytes[0] != SEQUENCE || usize::from(bytes[1]) != len - 3 {
        return false;
    }
    let r_len = usize::from(bytes[3]);
    if bytes[2] != INTEGER || r_len + 7 > len {
        return false;
    }
    let s_len = usize::from(bytes[5 + r_len]);
    if bytes[4 + r_len] != INTEGER || r_len + s_len + 7 != len {
        return false;
    }
    is_integer(&bytes[4..4 + r_len]) && is_integer(&bytes[6 + r_len..len - 1])
}

/// An integer is above 0 or one zero byte, the highest byte first, with no byte more than it needs.
fn is_integer(bytes: &[u8]) -> bool
    ensures { IsTrue result ↔ IsInteger bytes.now }
{
    match bytes {
        [] => false,
        [only] => *only < 0x80,
        [first, next, ..] => *first < 0x80 && (*first != 0 || *next >= 0x80),
    }
}
