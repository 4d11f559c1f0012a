//! Codes in pieces.

ghost use Rattle.std.specs.Prelude.{◌≡◌, ◌↔◌, ◌++◌, ℕ, List, IsTrue, MatchOption};
ghost use Rattle.std.specs.List.{concat};
ghost use Rattle.script.specs.Removal.{bytes_of};

/// What follows these bytes, if others begin with them.
fn behind<'a>(bytes: &'a [u8], front: &[u8]) -> Option<&'a [u8]>
    ensures { MatchOption result ((more : List ℕ) → bytes.entry.now ≡ front.now ++ more → ⊥)
        (λ rest. bytes.entry.now ≡ front.now ++ rest.now) }
{
    if bytes.len() < front.len() {
        return None;
    }
    let (begin, rest) = bytes.split_at(front.len());
    if begin == front {
        return Some(rest);
    }
    None
}

/// Whether the pieces joined are a code.
pub fn are_code(pieces: &[&[u8]], code: &[u8]) -> bool
    ensures { IsTrue result ↔ (concat (bytes_of pieces.now) ≡ code.now) }
{
    let mut rest = code;
    for piece in pieces {
        let Some(next) = behind(rest, piece) else {
            return false;
        };
        rest = next;
    }
    rest.is_empty()
}
