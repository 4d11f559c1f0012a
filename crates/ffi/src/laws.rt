//! What holds of the words of this crate.

ghost use Rattle.std.specs.Prelude.{◌≡◌, ◌++◌, ℕ, List, length};
ghost use Rattle.std.specs.FinSet as set;
ghost use Rattle.hex.specs.Hex.{IsBytes};
ghost use Rattle.signatures.specs.Lines.{IsTableOf, lines};
ghost use Rattle.signatures.specs.Triple.{Triples, triple_of};
ghost use Rattle.ffi.specs.Tables.{line_of};

/// The line that `ffi_table_line` gives, put behind any table's text, adds its triple to the table, and no other.
pub fn a_line_adds_its_triple()
    ensures { (text key signature digest : List ℕ) (triples : Triples) → IsBytes key
        → IsBytes signature → IsBytes digest → length digest ≡ 32
        → IsTableOf (lines text) triples
        → IsTableOf (lines (text ++ line_of key signature digest))
        (set.insert triples (triple_of key signature digest)) }
{}
