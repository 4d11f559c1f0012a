//! The log of a node: whatever anyone was told outlives a crash at any moment, by one write and one sync for many.
#![tactic(auto)]

mod host;
mod kept_log;
mod laws;
mod lines;
mod log;
mod lost;
mod uncut_log;

pub use host::{Asked, Call, Host};
pub use kept_log::KeptLog;
pub use laws::{a_torn_line_is_not_refused, nothing_told_is_lost};
pub use lines::{Found, first_line, recover, spoiled_at, whole_lines};
pub use log::{Answer, AppendFault, Log};
pub use lost::Lost;
pub use uncut_log::{Spoiled, UncutLog};
