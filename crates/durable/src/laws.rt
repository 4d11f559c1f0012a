//! What holds over several lives of a log.

ghost use Rattle.std.specs.Prelude.{◌≡◌, ◌++◌, ◌∷◌, [], Bool, false, List, ℕ, length};
ghost use mathlib.Core.List.{IsPrefix};
ghost use Rattle.durable.specs.Crash.{Appended, Leaves};
ghost use Rattle.durable.specs.Lines.{lines, AreWhole, IsLine, is_spoiled};
ghost use Rattle.durable.specs.KeptSteps.{Life, AreLives, AllAreUpTo, left_by};

/// Of lives that each opened the file that the one before had left, and kept their histories: the last file begins with
/// the lines of the first, and has every step that anyone was told of in any of them.
pub fn nothing_told_is_lost()
    ensures grows { (file : List ℕ) (lives : List Life) → AreLives file lives
        → IsPrefix (lines file) (lines (left_by file lives)) }
    ensures has { (file : List ℕ) (lives : List Life) → AreLives file lives
        → AllAreUpTo (length (lines (left_by file lives))) lives }
{}

/// What a crash leaves of whole lines and one more isn't refused. Of several at once a later one may be whole behind a zero
/// byte.
pub fn a_torn_line_is_not_refused()
    ensures { (file line left : List ℕ) (done : Bool) → AreWhole false file → IsLine line
        → Leaves (Appended file (line ++ 10 ∷ []) done) left → is_spoiled left ≡ false }
{}
