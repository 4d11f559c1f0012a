//! What holds of the definitions.

ghost use Rattle.std.specs.Prelude.{◌≡◌, ◌↔◌, ℕ, List, IsTrue, Bool, true, false, None, Some};
ghost use Rattle.std.specs.FinSet as set;
ghost use Rattle.signatures.specs.Shape.{IsStrict};
ghost use Rattle.signatures.specs.Triple.{Triple, Triples};
ghost use Rattle.signatures.specs.Known.{Known, Agrees, Verdicts, AreApart, verdict_in, with_verdict};
ghost use Rattle.signatures.specs.laws.Growth.{Grows};
ghost use Rattle.signatures.specs.computed.Shape.{is_strict};

/// The test of a signature's encoding holds exactly where the grammar does.
pub fn shape_test()
    ensures { (bytes : List ℕ) → IsTrue (is_strict bytes) ↔ IsStrict bytes }
{}

/// Two tables that have the same triples are equal, however they were made.
pub fn same_members()
    ensures { (a b : Triples) → ((t : Triple) → set.contains a t ≡ set.contains b t) → a ≡ b }
{}

/// With a table one set agrees, its triples.
pub fn a_table_is_the_set_that_agrees()
    ensures { (table triples : Triples)
        → Agrees (λ t. Some (set.contains table t)) triples ↔ triples ≡ table }
{}

/// A set agrees with what was found out exactly where it has each triple that was found valid, and none that was
/// found not to be.
pub fn a_set_that_agrees_has_each_yes_and_no_no()
    ensures { (found : Verdicts) → AreApart found.valid found.invalid → (triples : Triples)
        → Agrees (verdict_in found) triples
        ↔ ((t : Triple) → set.contains found.valid t ≡ true → set.contains triples t ≡ true)
        × ((t : Triple) → set.contains found.invalid t ≡ true → set.contains triples t ≡ false) }
{}

/// What agrees with more agrees with less.
pub fn more_agrees_with_less()
    ensures { (before after : Known) → Grows before after → (triples : Triples)
        → Agrees after triples → Agrees before triples }
{}

/// Where none was known, a verdict more changes no other, and a set agrees with it exactly where it agreed before and
/// has that verdict.
pub fn a_verdict_more_changes_no_other()
    ensures grows { (found : Verdicts) (t : Triple) (valid : Bool) → verdict_in found t ≡ None
        → Grows (verdict_in found) (verdict_in (with_verdict found t valid)) }
    ensures agrees { (found : Verdicts) (t : Triple) (valid : Bool) → verdict_in found t ≡ None
        → (triples : Triples) → Agrees (verdict_in (with_verdict found t valid)) triples
        ↔ Agrees (verdict_in found) triples × (set.contains triples t ≡ valid) }
{}
