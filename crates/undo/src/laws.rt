//! What a transaction does to the coins, outpoint by outpoint.

ghost use Rattle.std.specs.Prelude.{◌≡◌, ◌<◌, ℕ, false, None, Some, length, if◌then◌else◌};
ghost use Rattle.std.proofs.Common.{get_or};
ghost use Rattle.std.specs.List.{list_any, AllByRecursion};
ghost use Rattle.std.specs.FinMap as coin_map;
ghost use Rattle.hash.specs.declared.id.Id.{Id};
ghost use Rattle.txn.specs.declared.outpoint.OutPoint.{OutPoint};
ghost use Rattle.txn.specs.declared.output.TxOut.{TxOut};
ghost use Rattle.txn.specs.Tx.{Tx};
ghost use Rattle.txn.specs.Check.{is_coinbase};
ghost use Rattle.script.specs.Kinds.{is_unspendable};
ghost use Rattle.coins.specs.Coins.{Coins, same};
ghost use Rattle.undo.specs.Effect.{spends, outpoint_at, coin_of, after, spent_coins, IsApplicable};
ghost use Rattle.undo.specs.laws.Reversal.{coins_before};

/// What a transaction spends is gone after it.
pub fn what_is_spent_is_gone()
    ensures { (coins : Coins) (tx : Tx) (id : Id) (height : ℕ) → IsApplicable coins tx id →
        AllByRecursion (λ outpoint. coin_map.get (after coins tx id height) outpoint ≡
        None) (spends tx) }
{}

/// At each output's place is its coin, and nothing where it can't be one.
pub fn each_output_makes_its_coin()
    ensures { (coins : Coins) (tx : Tx) (id : Id) (height : ℕ) → IsApplicable coins tx id →
        (index : ℕ) (other : TxOut) → index < length tx.outputs →
        (let output = get_or tx.outputs index other in
        coin_map.get (after coins tx id height) (outpoint_at id index) ≡
        (if is_unspendable output.script then None else
        Some (coin_of height (is_coinbase tx) output))) }
{}

/// All other coins stay.
pub fn all_other_coins_stay()
    ensures { (coins : Coins) (tx : Tx) (id : Id) (height : ℕ) (outpoint : OutPoint) →
        list_any (same outpoint) (spends tx) ≡ false →
        ((index : ℕ) → index < length tx.outputs → ¬ (outpoint ≡ outpoint_at id index)) →
        coin_map.get (after coins tx id height) outpoint ≡ coin_map.get coins outpoint }
{}

/// A transaction that is taken back leaves the coins of before.
pub fn taking_back_leaves_the_coins_of_before()
    ensures { (coins : Coins) (tx : Tx) (id : Id) (height : ℕ) → IsApplicable coins tx id →
        coins_before (after coins tx id height) tx id (spent_coins coins tx) ≡ coins }
{}
