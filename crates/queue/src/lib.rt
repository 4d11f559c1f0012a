//! Script checks on several threads: the least job of a list that isn't accepted.
#![tactic(auto)]

mod branch_wants;
mod checks;
mod claimed_places;
mod crew;
mod early;
mod early_jobs;
mod first;
mod found;
mod gate;
mod jobs;
mod judges;
mod known_verdicts;
mod no_answer;
mod same_jobs;
mod source;
mod verdict;
mod verdict_index;
mod verdicts;
mod walk;
mod workers;

pub use branch_wants::{MAX_WANTS, are_enough, joined};
pub use crew::{Alone, Crew, Threaded};
pub use early::check_early;
pub use early_jobs::EarlyJobs;
pub use first::{Runs, first_failure};
pub use found::{Found, Seen};
pub use gate::{Gate, Open};
pub use jobs::JobList;
pub use judges::Judges;
pub use no_answer::Undecided;
pub use source::Source;
pub use verdict::Verdict;
pub use verdicts::Verdicts;
