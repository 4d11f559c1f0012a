//! What a layer of changes can have as its base.

ghost use Rattle.std.specs.Prelude.{◌≡◌};
ghost use Rattle.std.specs.Option.{option_map};
ghost use Rattle.std.specs.FinMap as map;
ghost use Rattle.coins.specs.Coins.{Coins};
ghost use Rattle.coins.specs.Lent.{lent};

use crate::lent::Lent;
use txn::OutPoint;

/// Coins that are looked up by their outpoints (Bitcoin Core's `CCoinsView`). A clause sees a finite
/// map of them.
pub trait Base {
    ghost coins: { Self → Coins };

    /// The coin at an outpoint, lent.
    fn get(&self, at: &OutPoint) -> Option<Lent<'_>>
        ensures { option_map lent result ≡ map.get (coins self.now) at.now };
}
