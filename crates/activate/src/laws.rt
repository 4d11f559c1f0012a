//! What holds of every chainstate that a caller has.

ghost use Rattle.std.specs.Prelude.{◌≡◌, pos, ◌≤ℤ◌};
ghost use Rattle.block.specs.Reward.{subsidy_of};
ghost use Rattle.signatures.specs.Known.{Known, Under};
ghost use Rattle.signatures.specs.Triple.{Triples};
ghost use Rattle.signatures.specs.laws.Growth.{Grows};
ghost use Rattle.coins.specs.Coins.{total};
ghost use Rattle.tree.specs.Branches.{height};
ghost use Rattle.model.specs.Settle.{active, best, tips};
ghost use Rattle.model.specs.Replay.{coins};
ghost use Rattle.model.specs.Total.{subsidies};
ghost use Rattle.model.specs.Regtest.{ledger, AreNotNegative, regtest};
ghost use Rattle.activate.specs.CoreState.{CoreState, WithCoins, Follows, IsChainstate, coins_of};

/// The coins of a chainstate are worth at most the subsidies of heights 1 to the active one.
pub fn the_coins_of_a_chainstate_are_worth_at_most_the_subsidies()
    ensures { (c : WithCoins) (triples : Triples) → IsChainstate c triples
        → let s = c.core.state in
        let r = regtest c.core.params triples in
        total c.coins ≤ℤ pos (subsidies subsidy_of (height s.blocks (active r s))) }
{}

/// None of them is worth less than nothing.
pub fn no_coin_of_a_chainstate_is_worth_less_than_nothing()
    ensures { (c : WithCoins) (triples : Triples) → IsChainstate c triples
        → AreNotNegative c.coins }
{}

/// The coins that a core asks of who lends them are the definition's.
pub fn the_coins_of_a_core_are_the_replay_of_the_active_branch()
    ensures { (c : CoreState) (triples : Triples) → Follows c triples
        → coins_of c ≡ coins (regtest c.params triples) ledger c.state }
{}

/// What is read of a chainstate is the same under all valid signatures under which it is one.
pub fn what_is_read_is_the_same_under_each_set()
    ensures active { (c : CoreState) (one other : Triples) → Follows c one → Follows c other
        → active (regtest c.params one) c.state ≡ active (regtest c.params other) c.state }
    ensures best { (c : CoreState) (one other : Triples) → Follows c one → Follows c other
        → best (regtest c.params one) c.state ≡ best (regtest c.params other) c.state }
    ensures tips { (c : CoreState) (one other : Triples) → Follows c one → Follows c other
        → tips (regtest c.params one) c.state ≡ tips (regtest c.params other) c.state }
    ensures coins { (c : CoreState) (one other : Triples) → Follows c one → Follows c other
        → coins (regtest c.params one) ledger c.state
        ≡ coins (regtest c.params other) ledger c.state }
{}

/// What is found out about signatures changes no chainstate: it is one under each set of valid signatures that still
/// agrees.
pub fn what_is_found_out_changes_no_chainstate()
    ensures { (c : WithCoins) (before after : Known) → Grows before after
        → Under before (λ triples. IsChainstate c triples)
        → Under after (λ triples. IsChainstate c triples) }
{}
