//! Where each seat's last entry is.

ghost use Rattle.std.specs.Prelude.{◌≡◌, ◌<◌, [], IfOk, Some, length, slice_get, slice_set};
ghost use Rattle.node.specs.inside.LastPlaces.{AreLastPlaces};

use std::alloc::Global;
use std::marker::Model;
use wire::Memory;

/// For each seat the place of its last entry, from 1; 0 where it has none. So no seat walks the entries of others.
#[derive(Drop)]
pub(crate) struct LastPlaces {
    places: Vec<usize>,
}

impl Model for LastPlaces {
    ghost use Rattle.std.specs.Prelude.{List, ℕ};

    ghost Value = { List ℕ };

    ghost view = { λ l. l.places.items };
}

impl LastPlaces {
    /// Of so many seats, none of which has an entry.
    pub(crate) fn new(alloc: Global, seats: usize) -> Result<LastPlaces, Memory>
        ensures { IfOk result (λ places. AreLastPlaces seats places []) }
    {
        let mut places = Vec::new(alloc);
        places.resize(seats, 0)?;
        Ok(LastPlaces { places })
    }

    /// The place of a seat's last entry.
    pub(crate) fn of(&self, seat: usize) -> usize
        requires { seat < length self.now }
        ensures { slice_get self.now seat ≡ Some result }
    {
        self.places[seat]
    }

    /// From now on the seat's last entry is at this place.
    pub(crate) fn set(&mut self, seat: usize, place: usize)
        requires { seat < length self.old }
        ensures { self.new ≡ slice_set self.old seat place }
    {
        self.places[seat] = place;
    }
}
