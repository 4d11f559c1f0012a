//! What readers see without waiting: the history so far, with the coins, the best block and the tips after it.
#![tactic(auto)]

mod chain_info;
mod growth;
mod history_name;
mod history_view;
mod hub;
pub mod laws;
mod publication;
mod publishers;
mod reads;
mod rule;
mod seen_history;
mod shared_entry;

pub use chain_info::{ChainInfo, Tips};
pub use growth::reserve_one;
pub use history_name::Naming;
pub use history_view::View;
pub use hub::Hub;
pub use publication::Publication;
pub use publishers::{
    ViewReader, ViewReading, ViewWriter, another_reader, enter, open_writer, publish,
};
pub use rule::ViewRule;
pub use seen_history::{EntryCount, HistoryRule, SeenHistory};
pub use shared_entry::SharedEntry;
