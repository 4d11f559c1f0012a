//! Inputs whose scripts are to be run before their block is connected.

ghost use Rattle.std.specs.Prelude.{◌≡◌, ◌↔◌, ℕ, ◌<◌, [], ◌∷◌, ◌++◌, All, IfOk, IfSome, IsTrue, OnOk, OnErr, Some, length, map, slice_get};
ghost use Rattle.std.specs.Option.{IfNone};

use crate::verdict_index::Key;
use interp::{Flags, Job};
use sighash::{Midstates, SpentScripts};
use std::alloc::Global;
use std::cmp::Ordering;
use std::marker::Model;
use txn::Tx;
use wire::Memory;

/// Inputs of transactions, each with a script of its own that it spends, under the same rules.
///
/// The transactions are borrowed, and the scripts are owned: the coins that they stood in may be gone when they run.
#[derive(Drop)]
pub struct EarlyJobs<'t> {
    txs: &'t [Tx],
    flags: Flags,
    list: Vec<Listed>,
}

/// An input of the transaction at a place, and the script that it spends.
#[derive(Drop)]
pub(crate) struct Listed {
    place: usize,
    input: usize,
    spent: Vec<u8>,
}

impl Listed {
    /// How it is ordered beside an input of the transaction at a place.
    fn compare(&self, place: usize, input: usize) -> Ordering {
        self.place.cmp(&place).then(self.input.cmp(&input))
    }

    /// Whether it is of the input and the script of the job.
    fn asks(&self, job: &Job) -> bool
        ensures { IsTrue result ↔
            ((self.now.input ≡ job.now.input) × (self.now.spent.items ≡ job.now.spent.now)) }
    {
        self.input == job.input && self.spent.as_slice() == job.spent
    }
}

impl<'t> Model for EarlyJobs<'t> {
    ghost use Rattle.std.specs.Coded.{codes};
    ghost use Rattle.std.specs.Prelude.{All, map};
    ghost use Rattle.queue.specs.Jobs.{Batch, spending, IsThere};

    ghost Value = { Batch };

    ghost coded = { Prim.hlevel codes };

    ghost view = { λ e. record {
      txs = e.txs.now;
      flags = e.flags;
      spendings = map (λ l. spending l.place l.input l.spent.items) e.list.items;
    } };

    ghost invariant = { λ e.
        All (λ l. IsThere e.txs.now (spending l.place l.input l.spent.items)) e.list.items };
}

impl<'t> EarlyJobs<'t> {
    ghost use Rattle.interp.specs.Question.{Question, question_of};
    ghost use Rattle.queue.specs.Jobs.{HasInput, Spending, questions, spending, tx_at, IsThere};
    ghost use Rattle.queue.specs.inside.KnownAnswers.{key_of};
    ghost use Rattle.sighash.specs.Midstates.{AreOf};

    /// No input of these transactions.
    pub fn new(alloc: Global, txs: &'t [Tx], flags: Flags) -> EarlyJobs<'t>
        ensures { result ≡ record { txs = txs.entry.now; flags = flags; spendings = [] } }
    {
        EarlyJobs {
            txs,
            flags,
            list: Vec::new(alloc),
        }
    }

    /// One more, of the transaction at a place.
    pub fn push(&mut self, place: usize, input: usize, spent: Vec<u8>) -> Result<(), Memory>
        requires { IsThere self.old.txs (spending place input spent.items) }
        ensures ok { OnOk result (self.new ≡ record self.old {
          spendings = self.old.spendings ++ spending place input spent.items ∷ [];
        }) }
        ensures err { OnErr result (self.new ≡ self.old) }
    {
        self.list.push(Listed {
            place,
            input,
            spent,
        })?;
        Ok(())
    }

    /// How many there are.
    pub fn len(&self) -> usize
        ensures { result ≡ length self.now.spendings }
    {
        self.list.len()
    }

    /// Whether there is none.
    pub fn is_empty(&self) -> bool
        ensures { IsTrue result ↔ (self.now.spendings ≡ []) }
    {
        self.list.is_empty()
    }

    /// The midstates of their transactions.
    pub(crate) fn midstates(&self, alloc: Global) -> Result<Vec<Midstates<'_>>, Memory>
        ensures { IfOk result (λ list. AreOf self.now.txs list.items) }
    {
        Midstates::of_each(alloc, self.txs, self)
    }

    /// They as jobs, which borrow the scripts and the midstates.
    pub(crate) fn jobs<'a>(
        &'a self,
        alloc: Global,
        midstates: &'a [Midstates<'a>],
    ) -> Result<Vec<Job<'a>>, Memory>
        requires { AreOf self.now.txs midstates.now }
        ensures asked { IfOk result (λ jobs. map question_of jobs.items ≡ questions self.now) }
        ensures inputs { IfOk result (λ jobs. All HasInput jobs.items) }
    {
        let mut jobs = Vec::with_capacity(alloc, self.list.len())?;
        for listed in &self.list {
            jobs.push(Job {
                tx: &self.txs[listed.place],
                input: listed.input,
                spent: listed.spent.as_slice(),
                flags: self.flags,
                midstates: midstates.get(listed.place),
            })?;
        }
        Ok(jobs)
    }

    /// By what the verdict on the input at a place is found.
    pub(crate) fn key(&self, at: usize) -> Key
        requires { at < length self.now.spendings }
        ensures { (q : Question) → slice_get (questions self.now) at ≡ Some q → result ≡ key_of q }
    {
        let listed = &self.list[at];
        let tx = &self.txs[listed.place];
        Key {
            outpoint: tx.inputs.as_slice()[0].prev,
            input: listed.input,
        }
    }

    /// Whether the input at a place asks what the job asks: of an equal transaction the same input, which spends the same
    /// script, under the same rules.
    pub(crate) fn fits(&self, at: usize, job: &Job) -> bool
        ensures { IsTrue result ↔ (slice_get (questions self.now) at ≡ Some (question_of job.now)) }
    {
        self.asks_but_for_tx(at, job) && self.is_of(at, job.tx)
    }

    /// The same, but of any transaction.
    pub(crate) fn asks_but_for_tx(&self, at: usize, job: &Job) -> bool
        ensures { IsTrue result ↔ ((s : Spending) × (slice_get self.now.spendings at ≡ Some s) ×
            (s.input ≡ job.now.input) × (s.spent ≡ job.now.spent.now) ×
            (self.now.flags ≡ job.now.flags)) }
    {
        let Some(listed) = self.list.get(at) else {
            return false;
        };
        listed.asks(job) && self.flags == job.flags
    }

    /// Whether the input at a place is of an equal transaction.
    fn is_of(&self, at: usize, tx: &Tx) -> bool
        ensures { IsTrue result ↔ ((s : Spending) × (slice_get self.now.spendings at ≡ Some s) ×
            (tx_at self.now.txs s.place ≡ tx.now)) }
    {
        let Some(listed) = self.list.get(at) else {
            return false;
        };
        self.txs[listed.place] == *tx
    }

    /// Whether the inputs at two places are of one transaction.
    pub(crate) fn are_of_one(&self, one: usize, other: usize) -> bool
        ensures { IsTrue result → (s t : Spending) → slice_get self.now.spendings one ≡ Some s →
            slice_get self.now.spendings other ≡ Some t → s.place ≡ t.place }
    {
        match (self.list.get(one), self.list.get(other)) {
            (Some(one), Some(other)) => one.place == other.place,
            _ => false,
        }
    }
}

// They are pushed in order of their places and inputs, mostly; one that isn't may not be found, and costs time alone.
impl<'t> SpentScripts for EarlyJobs<'t> {
    fn script(&self, place: usize, input: usize) -> Option<&[u8]> {
        let at = self
            .list
            .binary_search_by(|listed| listed.compare(place, input))
            .ok()?;
        Some(self.list.get(at)?.spent.as_slice())
    }
}
