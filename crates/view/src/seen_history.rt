//! Beginnings of the one history, as tokens: what was seen of it is never undone.

ghost use Rattle.std.specs.Prelude.{◌≡◌, ◌⊎◌, ◌<◌, ◌^◌, ◌++◌, ◌∷◌, [], length, MatchBool};
ghost use mathlib.Core.List.{IsPrefix};
ghost use Rattle.view.specs.HistoryPrefix.{count_of};
ghost use Rattle.view.specs.inside.NextEntry.{IsShorter};

use logbook::{Gain, Offer, Plain, Play, Rule, Seen, Start, Word};
use model::Entry;
use std::marker::Model;

/// The rule of the history: one word counts its entries. No value of it is made.
pub struct HistoryRule;

impl Rule<Entry, u64> for HistoryRule {
    ghost use Rattle.std.specs.Prelude.{[]};
    ghost use base.Fml.{ftrue};
    ghost use Rattle.view.specs.HistoryPrefix.{Counts};

    ghost holds = { λ cells log. Counts cells log };

    ghost first = { [] };

    ghost hinted = { λ n log. Unit {0} };

    ghost shows = { λ log. [] };

    ghost keeps = { λ names log. ftrue };

    ghost moves = { λ ask before after answer. Unit {0} };
}

/// Callers trade nothing.
pub(crate) struct Nothing;

impl Gain<Entry, u64> for Nothing {
    ghost use base.Fml.{ftrue};

    ghost after = { λ names about answer. ftrue };
}

/// A step that adds an entry.
pub(crate) struct Adding;

impl Play<Entry, u64> for Adding {
    ghost use Rattle.view.specs.inside.NextEntry.{Adds};

    ghost then = { Adds };
}

impl Plain<Entry, Entry, u64> for Adding {
    ghost use Rattle.std.specs.Prelude.{None};

    ghost ask = { λ e. e };

    ghost state = { λ e. None };
}

/// The shared word that counts the entries.
pub type EntryCount = Word<Entry, u64, HistoryRule>;

/// A beginning of the history, which its owner has seen. A copy takes no memory, and another thread may have it.
#[derive(Drop)]
pub struct SeenHistory {
    count: u64,
    seen: Seen<Entry, u64, HistoryRule>,
}

impl Model for SeenHistory {
    ghost use Rattle.std.specs.Prelude.{◌≡◌, length};
    ghost use Rattle.view.specs.HistoryPrefix.{Beginning};

    ghost Value = { Beginning };

    ghost view = { λ n. record { book = n.seen.book; entries = n.seen.log } };

    ghost invariant = { λ n. n.count ≡ length n.seen.log };
}

impl SeenHistory {
    /// A new history, with the word that counts its entries.
    pub fn open() -> (EntryCount, SeenHistory)
        ensures count { result.0 ≡ count_of result.1.book }
        ensures empty { result.1.entries ≡ [] }
    {
        let (seen, mut first, _second) = Seen::open(Start::alone(), 0, 0);
        (Word::tracked(0, &mut first), SeenHistory { count: 0, seen })
    }

    /// How many entries it has.
    pub fn len(&self) -> u64
        ensures { result ≡ length self.now.entries }
    {
        self.count
    }

    /// The same.
    pub fn copy(&self) -> SeenHistory
        ensures { result ≡ self.now }
    {
        SeenHistory {
            count: self.count,
            seen: self.seen.again(),
        }
    }

    /// Whether the other, of the same history, is no shorter. The shorter of two begins the longer.
    pub fn begins(&self, other: &SeenHistory) -> bool
        requires { other.now.book ≡ self.now.book }
        ensures { let a = self.now.entries in let b = other.now.entries in
            MatchBool result (IsPrefix a b) (IsPrefix b a) }
    {
        let mut both = self.seen.again();
        both.learn(&other.seen);
        self.count <= other.count
    }

    /// Hears of another of the same history: it is the longer of both then.
    pub fn told(&mut self, other: &SeenHistory)
        requires { other.now.book ≡ self.old.book }
        ensures one_of { (self.new ≡ self.old) ⊎ (self.new ≡ other.now) }
        ensures grows { IsPrefix self.old.entries self.new.entries }
        ensures heard { IsPrefix other.now.entries self.new.entries }
    {
        if self.begins(other) {
            *self = other.copy();
        }
    }

    /// Each hears of the other: both are the longer of them then.
    pub fn meet(&mut self, other: &mut SeenHistory)
        requires { other.old.book ≡ self.old.book }
        ensures same { other.new ≡ self.new }
        ensures one_of { (self.new ≡ self.old) ⊎ (self.new ≡ other.old) }
        ensures grows { IsPrefix self.old.entries self.new.entries }
        ensures heard { IsPrefix other.old.entries self.new.entries }
    {
        self.told(other);
        *other = self.copy();
    }

    /// Adds an entry to all that there is. Where the history is longer than this it hears of that instead.
    pub(crate) fn add(&mut self, counter: &EntryCount, entry: &Entry) -> bool
        requires room { length self.old.entries < 2 ^ 62 }
        requires counter { counter.now ≡ count_of self.old.book }
        ensures book { self.new.book ≡ self.old.book }
        ensures entries { let es = self.old.entries in
            MatchBool result (self.new.entries ≡ es ++ entry.now ∷ [])
            (IsShorter es self.new.entries) }
    {
        let mut seen = self.seen.again();
        let mut offer: Offer<Entry, u64, HistoryRule, Nothing> = seen.plain::<
            Nothing,
            Entry,
            Adding,
        >(entry);
        let mut pen = seen.no_pen();
        let count = self.count;
        let found = counter.compare_exchange::<Adding, Nothing>(
            count,
            count + 1,
            &mut seen,
            &mut offer,
            &mut pen,
        );
        self.seen = seen;
        self.count = if found == count { count + 1 } else { found };
        found == count
    }
}
