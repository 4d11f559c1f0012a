//! What holds of the definitions.

ghost use Rattle.std.specs.Prelude.{◌≡◌, ℕ, List};
ghost use Rattle.locks.specs.MedianTime.{IsMedian, median_of};

/// A list has no two medians.
pub fn one_median()
    ensures { (times : List ℕ) (m : ℕ) → IsMedian times m → m ≡ median_of times }
{}
