//! The transactions of a block.

use txn::Tx;
use wire::Parts;

/// The transactions of a block, in order.
pub type Txs = Parts<Tx>;
