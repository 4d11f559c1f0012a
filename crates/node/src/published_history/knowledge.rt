//! What is known of signatures under the lock.

ghost use Rattle.std.specs.Prelude.{◌≡◌, [], None, OnOk, OnErr};
ghost use Rattle.std.specs.Arc.{arc_value};
ghost use Rattle.std.specs.Option.{option_map};
ghost use Rattle.view.specs.Origin.{Origin};
ghost use Rattle.node.specs.inside.Knowledge.{IsKnowledge, known_of, with_learnt};

use signatures::{KeptTriple, KnownSignatures, KnowsSignatures, Table};
use std::alloc::Global;
use std::sync::Arc;
use wire::Memory;

/// Who says whether a signature is valid.
#[derive(Drop)]
pub(crate) enum Knowledge {
    /// A table, of all that are valid.
    Table(Arc<Table>),
    /// The verdicts that the history tells.
    Found(KnownSignatures),
}

impl Knowledge {
    /// What is known before any entry: all of a table, or nothing.
    pub(crate) fn opening(alloc: Global, table: Option<Arc<Table>>) -> Knowledge
        ensures { (o : Origin) → o.table ≡ option_map arc_value table → IsKnowledge o result [] }
    {
        match table {
            Some(table) => Knowledge::Table(table),
            None => Knowledge::Found(KnownSignatures::new(alloc)),
        }
    }

    /// Whether a triple is valid, where that is known.
    pub(crate) fn find(&self, triple: &KeptTriple) -> Option<bool>
        ensures { result ≡ known_of self.now triple.now }
    {
        let (key, signature, digest) = (triple.key(), triple.signature(), triple.digest());
        match self {
            Knowledge::Table(table) => table.find(key, signature, digest),
            Knowledge::Found(found) => found.find(key, signature, digest),
        }
    }

    /// Takes the verdict on a triple of which none is known.
    pub(crate) fn learn(&mut self, triple: &KeptTriple, valid: bool) -> Result<(), Memory>
        requires { known_of self.old triple.now ≡ None }
        ensures ok { OnOk result (self.new ≡ with_learnt self.old triple.now valid) }
        ensures err { OnErr result (self.new ≡ self.old) }
    {
        match self {
            Knowledge::Table(_) => Ok(()),
            Knowledge::Found(found) => found.learn_kept(triple, valid),
        }
    }
}
