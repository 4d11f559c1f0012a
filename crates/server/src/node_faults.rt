//! What a run ends with where its node answers a fault.

use console::fault::RunFault;
use node::OpenFault;

/// Where no node could be opened.
pub fn unopened(fault: OpenFault) -> RunFault<'static> {
    match fault {
        OpenFault::Memory => RunFault::Memory,
        _ => RunFault::Closed,
    }
}

/// Where a seat answered a fault.
pub fn unanswered(fault: node::Fault) -> RunFault<'static> {
    match fault {
        node::Fault::Memory => RunFault::Memory,
        node::Fault::Owed => RunFault::Owed,
        node::Fault::Closed => RunFault::Closed,
        // The node has a table, so it knows each signature.
        node::Fault::Unknown => RunFault::Closed,
    }
}
