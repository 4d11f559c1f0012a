//! What holds of coins, of lists of changes, and of totals.

ghost use Rattle.std.specs.Prelude.{◌≡◌, ◌+ℤ◌, ◌-ℤ◌, pos, None, Some};
ghost use Rattle.std.specs.FinMap as map;
ghost use Rattle.txn.specs.declared.outpoint.OutPoint.{OutPoint};
ghost use Rattle.coins.specs.declared.coin.Coin.{Coin};
ghost use Rattle.coins.specs.Coins.{Coins, total};
ghost use Rattle.coins.specs.Changes.{Changes, AreChanges, after_changes};

/// The changes from some coins to others, applied to the first, give the others.
pub fn changes_lead_to_the_coins()
    ensures { (before after : Coins) (changes : Changes) → AreChanges before after changes →
        after_changes before changes ≡ after }
{}

/// Between two maps of coins there is one list of changes alone.
pub fn changes_are_one_list()
    ensures { (before after : Coins) (changes others : Changes) → AreChanges before after changes →
        AreChanges before after others → changes ≡ others }
{}

/// Without coins the total is 0.
pub fn no_coins_are_worth_nothing()
    ensures { total map.empty ≡ pos 0 }
{}

/// A coin that is added raises the total by its value.
pub fn adding_raises_the_total()
    ensures { (coins : Coins) (at : OutPoint) (coin : Coin) → map.get coins at ≡ None →
        total (map.insert coins at coin) ≡ total coins +ℤ coin.value }
{}

/// A coin that is spent lowers the total by its value.
pub fn spending_lowers_the_total()
    ensures { (coins : Coins) (at : OutPoint) (coin : Coin) → map.get coins at ≡ Some coin →
        total (map.remove coins at) ≡ total coins -ℤ coin.value }
{}
