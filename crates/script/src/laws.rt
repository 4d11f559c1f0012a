//! What holds of the definitions.

ghost use Rattle.std.specs.Prelude.{◌≡◌, ◌<◌, ◌≤◌, ◌^◌, unsigned_abs, ◌↔◌, IsTrue, ◌⊎◌, List, [], ℕ, ℤ, length};
ghost use Rattle.wire.specs.Grammar.{IsBytes};
ghost use Rattle.script.specs.Kinds.{is_p2sh};
ghost use Rattle.script.specs.laws.Grammar.{IsP2sh};
ghost use Rattle.script.specs.Num.{num_value, shortest_bytes};
ghost use Rattle.script.specs.Op.{number_of, pushed_of};
ghost use Rattle.script.specs.laws.Grammar.{IsCutShort, Spells};
ghost use Rattle.script.specs.Ops.{ops, rest};
ghost use Rattle.script.specs.laws.Grammar.{Splits};

/// Each script is the opcodes that `Ops` gives and then its rest, which is nothing or a push that is cut short,
/// and there is no other way to split it.
pub fn one_split()
    ensures splits { (script : List ℕ) → IsBytes script → Splits script (ops script) (rest script) }
    ensures cut { (script : List ℕ) → IsBytes script
        → (rest script ≡ []) ⊎ IsCutShort (rest script) }
    ensures alone { (script : List ℕ) (list : List (List ℕ)) (left : List ℕ) → IsBytes script
        → Splits script list left → (ops script ≡ list) × (rest script ≡ left) }
{}

/// An opcode's bytes say its number and what it pushes.
pub fn one_meaning()
    ensures number { (number : ℕ) (pushed op : List ℕ) → Spells number pushed op
        → number_of op ≡ number }
    ensures pushed { (number : ℕ) (pushed op : List ℕ) → Spells number pushed op
        → pushed_of op ≡ pushed }
{}

/// The spelling of a number, of any `i64` at least, is read as that number, and nothing shorter is.
pub fn one_number()
    ensures reads { (z : ℤ) → unsigned_abs z < 2 ^ 64 → num_value (shortest_bytes z) ≡ z }
    ensures shortest { (z : ℤ) (bytes : List ℕ) → IsBytes bytes → num_value bytes ≡ z
        → length (shortest_bytes z) ≤ length bytes }
{}

/// What pays to a script hash is the 23 bytes of BIP 16.
pub fn p2sh_shape()
    ensures { (script : List ℕ) → IsTrue (is_p2sh script) ↔ IsP2sh script }
{}
