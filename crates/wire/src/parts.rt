//! A list as a field that clauses see plainly.

ghost use Rattle.std.specs.Prelude.{◌≡◌, IfOk, IsTrue, ◌↔◌, Decides, [], length};
ghost use lib.Pointwise.{pointwise};

use std::marker::Model;

/// Parts of one kind, in order. A clause sees their list.
///
/// A `Vec` in a field would show a clause its capacity too.
#[derive(Clone, Debug, Drop)]
pub struct Parts<T> {
    items: Vec<T>,
}

impl<T> Model for Parts<T> {
    ghost use Rattle.std.specs.Prelude.{List};

    ghost Value = { List T };

    ghost view = { λ s. s.items.items };
}

impl<T: PartialEq> PartialEq for Parts<T> {
    ghost use Rattle.std.specs.Cmp.Lexicographic.{lists_per};

    ghost eq = { pointwise T.eq };

    ghost laws = { lists_per T.laws };

    fn eq(&self, other: &Parts<T>) -> bool
        ensures each { result ≡ pointwise T.eq self.now other.now }
        // Where parts compare as equal exactly if they are, so do lists of them.
        ensures equal { ((a b : T) → Decides (T.eq a b) (a ≡ b))
            → IsTrue result ↔ (self.now ≡ other.now) }
    {
        self.items == other.items
    }
}

impl<T: Eq> Eq for Parts<T> {
    ghost use Rattle.std.specs.Cmp.Lexicographic.{lists_equiv};

    ghost laws = { lists_equiv T.Eq.laws };
}

impl<T> Parts<T> {
    /// The parts of this list.
    pub fn from_vec(items: Vec<T>) -> Parts<T>
        ensures { result ≡ items.items }
    {
        Parts { items }
    }

    /// The parts, lent.
    pub fn as_slice(&self) -> &[T]
        ensures { result.now ≡ self.now }
    {
        self.items.as_slice()
    }

    /// How many there are.
    pub fn len(&self) -> usize
        ensures { result ≡ length self.now }
    {
        self.items.len()
    }

    /// Whether there is none.
    pub fn is_empty(&self) -> bool
        ensures { IsTrue result ↔ (self.now ≡ []) }
    {
        self.items.is_empty()
    }
}
