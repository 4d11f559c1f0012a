//! Seats: a caller's place at the history.

ghost use Rattle.std.specs.Prelude.{◌≡◌, [], true, length};
ghost use mathlib.Core.List.{IsPrefix};
ghost use Rattle.view.specs.ViewState.{IsLegal};

use crate::learnt::Learnt;
use crate::note::Note;
use crate::origin::SeatToken;
use crate::published_history::PublishedHistory;
use crate::reader_home::ReaderHome;
use model::{Command, Submission};
use rules::Params;
use signatures::{KeptTriple, Table};
use std::alloc::Global;
use std::marker::{Model, PhantomData};
use std::sync::Arc;
use view::{Naming, ViewReader};

/// A caller's place at the history. A clause sees its pass: what the seat has seen, and what of it is its
/// own.
#[derive(Drop)]
pub struct Seat<'t, J: Naming> {
    pub(crate) params: Params,
    /// All valid signatures, if they are known from the first.
    pub(crate) table: Option<&'t Arc<Table>>,
    pub(crate) token: SeatToken<J>,
    /// What it has seen.
    pub(crate) seen: view::SeenHistory,
    /// The place of its last own entry whose reply it was told, from 1; 0 where there is none.
    pub(crate) answered: u64,
    /// The commands of its own steps since then, whose replies are owed.
    pub(crate) owed: Vec<Command>,
    /// The signatures that its last write or dry run wants: none but where that was answered
    /// [`Fault::Unknown`](crate::Fault::Unknown).
    pub(crate) wants: Vec<KeptTriple>,
    /// What was made of the bytes of its last submission, if that wanted signatures.
    pub(crate) submission: Option<Submission>,
    /// What it told of signatures since its last step of another kind.
    pub(crate) learnt: Learnt<J>,
    pub(crate) reader: ReaderHome<J>,
}

impl<'t, J: Naming> Model for Seat<'t, J> {
    ghost use Rattle.std.specs.Coded.{codes};
    ghost use Rattle.std.specs.FinSet as set;
    ghost use Rattle.signatures.specs.Triple.{triple_cmp, coded_triple};
    ghost use Rattle.std.specs.Prelude.{◌≡◌, ◌≤◌, ◌++◌, true, take, length, map};
    ghost use Rattle.std.specs.Arc.{arc_value};
    ghost use Rattle.std.specs.Option.{option_map};
    ghost use Rattle.model.specs.History.{own_of};
    ghost use Rattle.view.specs.ViewState.{IsLegal};
    ghost use Rattle.node.specs.Pass.{Pass, owed_entry};
    ghost use Rattle.node.specs.inside.Seats.{IsAt};

    ghost Value = { Pass };

    ghost coded = { Prim.hlevel (codes, coded_triple, set.code {R = triple_cmp} coded_triple) };

    ghost view = { λ s. let before = take s.answered s.seen.entries in record {
      number = s.token;
      origin = J.origin;
      seen = s.seen.entries;
      mine = own_of s.token before ++ map (owed_entry s.token) s.owed.items;
      wants = s.wants.items;
    } };

    ghost invariant = { λ s. IsAt J.origin s.params (option_map (λ t. arc_value t.now) s.table) s.seen
        × (s.answered ≤ length s.seen.entries)
        × (s.reader ≡ true) };
}

impl<'t, J: Naming> Seat<'t, J> {
    ghost use Rattle.std.specs.Arc.{arc_value};
    ghost use Rattle.std.specs.Option.{option_map};
    ghost use Rattle.node.specs.Pass.{IsLater, IsLonger, IsOwn, IsStanding, opening_pass};
    ghost use Rattle.node.specs.inside.Seats.{IsAt};

    /// The unknown signatures for which the seat's last write or dry run took no step
    /// ([`Fault::Unknown`](crate::Fault::Unknown)): none where it was answered or owed, nor after [`learn`](Seat::learn).
    /// Reads leave them.
    pub fn wants(&self) -> &[KeptTriple]
        ensures { result.now ≡ self.now.wants }
    {
        self.wants.as_slice()
    }

    /// What this seat has seen. It takes no memory, and waits for nobody.
    #[tactic(auto, using(crate::proofs::OwnEntries::own_begins))]
    pub fn note(&self) -> Note<J>
        ensures origin { result.origin ≡ self.now.origin }
        ensures seen { result.seen ≡ self.now.seen }
        ensures own { IsOwn self.now }
    {
        Note {
            seen: self.seen.copy(),
            of: PhantomData,
        }
    }

    /// From now on the seat has seen that too. It takes no memory, and waits for nobody.
    #[tactic(auto, using(crate::proofs::OwnEntries::own_begins))]
    pub fn told(&mut self, note: &Note<J>)
        ensures later { IsLater self.old self.new }
        ensures mine { self.new.mine ≡ self.old.mine }
        ensures wants { self.new.wants ≡ self.old.wants }
        ensures longer { IsLonger self.old.seen note.now.seen self.new.seen }
        ensures own { IsOwn self.new }
    {
        if self.seen.begins(&note.seen) {
            self.seen = note.seen.copy();
        }
    }

    /// Both have seen what either had. It takes no memory, and waits for nobody.
    pub fn meet(&mut self, other: &mut Seat<'_, J>)
        ensures later { IsLater self.old self.new × IsLater other.old other.new }
        ensures mine { (self.new.mine ≡ self.old.mine) × (other.new.mine ≡ other.old.mine) }
        ensures longer { IsLonger self.old.seen other.old.seen self.new.seen }
        ensures same { other.new.seen ≡ self.new.seen }
        ensures own { IsOwn self.new × IsOwn other.new }
    {
        self.told(&other.note());
        other.told(&self.note());
    }

    /// A new seat, which has seen and done nothing.
    pub(crate) fn new(
        alloc: Global,
        params: Params,
        table: Option<&'t Arc<Table>>,
        token: SeatToken<J>,
        seen: view::SeenHistory,
        reader: ViewReader<J>,
    ) -> Seat<'t, J>
        requires empty { seen.entries ≡ [] }
        requires at { IsAt J.origin params (option_map (λ t. arc_value t.now) table) seen }
        ensures { result ≡ opening_pass J.origin token }
    {
        let learnt = Learnt::new(alloc, seen.copy());
        Seat {
            params,
            table,
            token,
            seen,
            answered: 0,
            owed: Vec::new(alloc),
            wants: Vec::new(alloc),
            submission: None,
            learnt,
            reader: ReaderHome::of(reader),
        }
    }

    /// Has seen this too, which goes on from what it had seen: how many entries that has.
    #[tactic(auto, using(crate::proofs::OwnEntries::own_begins))]
    pub(crate) fn see(&mut self, found: view::SeenHistory) -> u64
        requires book { found.book ≡ J.origin.book }
        requires grows { IsPrefix self.old.seen found.entries }
        requires legal { IsLegal J.origin found.entries }
        ensures later { IsLater self.old self.new }
        ensures kept { (self.new.mine ≡ self.old.mine) × (self.new.wants ≡ self.old.wants) }
        ensures seen { self.new.seen ≡ found.entries }
        ensures at { result ≡ length found.entries }
        ensures own { IsOwn self.new }
    {
        self.seen = found;
        self.seen.len()
    }

    /// Whether a history goes on from what the seat has seen, and the seat's entries in it are its own.
    pub(crate) fn stands_in(&self, history: &PublishedHistory<J>) -> bool
        ensures { (result ≡ true) → IsStanding history.now.journal self.now }
    {
        if !self.seen.begins(&history.note()) {
            return false;
        }
        history.has_owed(&self.token, self.answered, self.owed.as_slice())
    }
}
