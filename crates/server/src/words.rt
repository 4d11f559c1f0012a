//! What is said of a served node and its seats.

ghost use Rattle.std.specs.Prelude.{◌≡◌};

use console::options::{NAME, VERSION};
use console::report::Clients;
pub use console::report::SEATS;
use node::Params;
use serving::Info;
use signatures::Table;
use std::sync::Arc;

/// How a node was opened, and who asked for its steps.
#[derive(Drop)]
pub struct Facts<'t> {
    pub params: Params,
    pub seats: usize,
    pub workers: usize,
    /// How many steps were loaded.
    pub loaded: usize,
    /// Whether answers wait for their steps to be on the disk.
    pub is_kept: bool,
    /// Whether answers go out before their steps are on the disk.
    pub is_unsynced: bool,
    /// Whether signatures are known by need alone, and not by a table.
    pub is_by_need: bool,
    /// Whether a request is refused for whose seat as many wait as may.
    pub is_busy: bool,
    /// How many megabytes of the history submissions that aren't kept may take.
    pub history_memory: Option<u64>,
    /// How many bytes of what was loaded such submissions take.
    pub wasted: u64,
    /// The folder into which what happened is saved.
    pub save: Option<&'t str>,
    /// The signatures that are valid from the start.
    pub table: Arc<Table>,
    pub clients: Clients<'t>,
}

impl Facts<'_> {
    /// How the node was opened.
    pub fn info(&self) -> Info<'static>
        ensures seats { (result.seats ≡ self.now.seats) × (result.workers ≡ self.now.workers)
            × (result.loaded ≡ self.now.loaded) }
        ensures heights { let params = self.now.params in
            (result.bip34 ≡ params.bip34) × (result.bip65 ≡ params.bip65)
            × (result.bip66 ≡ params.bip66) × (result.csv ≡ params.csv)
            × (result.nulldummy ≡ params.nulldummy) }
    {
        let Params {
            bip34,
            bip65,
            bip66,
            csv,
            nulldummy,
        } = self.params;
        Info {
            program: NAME,
            version: VERSION,
            seats: self.seats as u64,
            workers: self.workers as u64,
            bip34,
            bip65,
            bip66,
            csv,
            nulldummy,
            loaded: self.loaded as u64,
        }
    }
}
