//! What there is after a history beside the coins: the best block, its height, and the tips.

ghost use Rattle.std.specs.Prelude.{◌≡◌, IfOk};

use hash::Id;
use std::alloc::{AllocError, Global};
use std::marker::Model;
use std::sync::Arc;
use tree::Tip;
use wire::Memory;

/// The tips of the tree, shared. A clause sees their list.
#[derive(Drop)]
pub struct Tips {
    shared: Arc<Vec<Tip>>,
}

impl Model for Tips {
    ghost use Rattle.std.specs.Arc.{arc_value};
    ghost use Rattle.std.specs.Prelude.{List};
    ghost use Rattle.tree.specs.declared.tip.Tip.{Tip};

    ghost Value = { List Tip };

    ghost view = { λ t. (arc_value t.shared).items };
}

// A clone is the same value. It takes no memory: it is refused only where 2^63 of them are kept.
impl Clone for Tips {
    ghost is_clone = { λ old new. new ≡ old };

    fn clone(&self) -> Result<Tips, AllocError> {
        Ok(Tips {
            shared: Arc::try_clone(&self.shared)?,
        })
    }
}

impl Tips {
    /// These tips, taken over.
    pub fn from_vec(alloc: Global, tips: Vec<Tip>) -> Result<Tips, Memory>
        ensures { IfOk result (λ shared. shared ≡ tips.items) }
    {
        match Arc::new(alloc, tips) {
            Ok(shared) => Ok(Tips { shared }),
            Err(_) => Err(Memory),
        }
    }

    /// The tips, lent.
    pub fn as_slice(&self) -> &[Tip]
        ensures { result.now ≡ self.now }
    {
        self.shared.as_slice()
    }
}

/// The best block's id and height, and the tips of the tree.
#[derive(Drop)]
pub struct ChainInfo {
    pub best: Id,
    pub height: usize,
    pub tips: Tips,
}

// A clone is the same value, and shares the tips.
impl Clone for ChainInfo {
    ghost is_clone = { λ old new. new ≡ old };

    fn clone(&self) -> Result<ChainInfo, AllocError> {
        Ok(ChainInfo {
            best: self.best,
            height: self.height,
            tips: self.tips.clone()?,
        })
    }
}
