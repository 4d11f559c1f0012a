//! What holds of whole histories.

ghost use Rattle.std.specs.Prelude.{◌≡◌, ◌≢◌, ◌≤◌, ◌+◌, ◌++◌, ◌∷◌, ◌↔◌, ℕ, pos, ◌≤ℤ◌, true, false, List, [], length, replicate, None, Option, Some};
ghost use Rattle.std.specs.List.{AllByRecursion};
ghost use Rattle.std.specs.FinMap as coin_map;
ghost use mathlib.Core.List.{IsPrefix};
ghost use Rattle.logbook.specs.Pages.{Book};
ghost use Rattle.block.specs.Reward.{subsidy_of};
ghost use Rattle.block.specs.declared.block.Block.{Block};
ghost use Rattle.txn.specs.declared.outpoint.OutPoint.{OutPoint};
ghost use Rattle.txn.specs.Identity.{ids_of};
ghost use Rattle.txn.specs.Tx.{Tx};
ghost use Rattle.txn.specs.Weight.{witness_ids_of};
ghost use Rattle.txn.specs.WitnessGrammar.{has_witness};
ghost use Rattle.coins.specs.declared.coin.Coin.{Coin};
ghost use Rattle.coins.specs.Coins.{total};
ghost use Rattle.signatures.specs.Known.{Agrees, Known, Under};
ghost use Rattle.signatures.specs.Triple.{Triples};
ghost use Rattle.rules.specs.declared.params.Params.{Params};
ghost use Rattle.model.specs.declared.command.Command.TheVariants as command;
ghost use Rattle.model.specs.declared.entry.Entry.{Entry};
ghost use Rattle.model.specs.Chainstate.{chainstate, confirmations};
ghost use Rattle.tree.specs.Branches.{Blocks, height, on};
ghost use Rattle.model.specs.History.{Legal, state_after_entries, state_at, state_left};
ghost use Rattle.model.specs.Learnt.{found_in, found_from, known_after};
ghost use Rattle.model.specs.Regtest.{ledger, regtest};
ghost use Rattle.model.specs.Replay.{coins, coins_at};
ghost use Rattle.model.specs.Settle.{active};
ghost use Rattle.model.specs.Total.{subsidies};
ghost use Rattle.view.specs.Origin.{Origin, known_in, machine, origin, origin_by_need, origin_of};
ghost use Rattle.view.specs.ViewState.{IsLegal, state_after};
ghost use Rattle.histories.specs.Checkpoints.{Checkpoint, IsCheckpointOf, IsLegalFrom, IsReached};
ghost use Rattle.histories.specs.Checkpoints.{genesis, known_from};
ghost use Rattle.histories.specs.Confirmations.{IsBelowBest, IsCoinOf, IsUnspentAbove};
ghost use Rattle.histories.specs.Histories.{AreAnswered, commands_of, replies_of, without_verdicts};

/// The signatures that a history says are valid are a set that agrees with all of its verdicts.
pub fn what_was_found_valid_agrees()
    ensures { (es : List Entry) → Agrees (known_after None es) (found_in es).valid }
{}

/// A verdict changes no chainstate: without them a history leads to the same state.
pub fn verdicts_change_no_state()
    ensures { (params : Params) (valid : Triples) (es : List Entry)
        → let m = chainstate params valid in
        state_after_entries m m.opening (without_verdicts es)
        ≡ state_after_entries m m.opening es }
{}

/// **What a node by need saves is legal**: its history without the verdicts, under the table of the signatures that were
/// found valid. So the definition gives each of its replies.
pub fn a_saved_history_is_legal()
    ensures { (book : Book) (params : Params) (seats : ℕ) (es : List Entry)
        → IsLegal (origin_by_need book params seats) es
        → Legal (chainstate params (found_in es).valid) seats (without_verdicts es) }
{}

/// **A table is the case in which one set agrees**: its triples, whatever the history tells. So what holds under every set
/// that agrees holds with a table exactly if it holds under the table.
pub fn with_a_table_one_set_agrees()
    ensures { (o : Origin) (table valid : Triples) (es : List Entry) → o.table ≡ Some table
        → Agrees (known_in o es) valid ↔ valid ≡ table }
{}

/// With a table a history is legal exactly if it tells no verdict, and is legal as one of the table's chainstate.
pub fn with_a_table_a_history_is_legal_under_it()
    ensures { (book : Book) (params : Params) (table : Triples) (seats : ℕ) (es : List Entry)
        → IsLegal (origin book params table seats) es
        ↔ (without_verdicts es ≡ es) × Legal (chainstate params table) seats es }
{}

/// Of two legal histories of one chainstate, of which one is asked what begins what the other is asked, the replies of the
/// one begin those of the other, where none is owed.
pub fn what_is_asked_says_what_is_replied()
    ensures { (params : Params) (valid : Triples) (seats others : ℕ) (xs ys : List Entry)
        → Legal (chainstate params valid) seats xs → Legal (chainstate params valid) others ys
        → AreAnswered xs → AreAnswered ys
        → IsPrefix (commands_of xs) (commands_of ys)
        → IsPrefix (replies_of xs) (replies_of ys) }
{}

/// **Nodes that take the same commands in one order give the same replies**, however each finds its signatures out, as long
/// as some set of valid signatures agrees with both: verdicts may stand anywhere.
pub fn nodes_that_are_asked_the_same_reply_the_same()
    ensures { (book other : Book) (params : Params) (table found : Option Triples)
        (seats others : ℕ) (xs ys : List Entry) (valid : Triples)
        → IsLegal (origin_of book params table seats) xs
        → IsLegal (origin_of other params found others) ys
        → Agrees (known_after table xs) valid → Agrees (known_after found ys) valid
        → AreAnswered xs → AreAnswered ys
        → IsPrefix (commands_of (without_verdicts xs)) (commands_of (without_verdicts ys))
        → IsPrefix (replies_of (without_verdicts xs)) (replies_of (without_verdicts ys)) }
{}

/// At each place of a history all coins together are worth at most the subsidies of the active branch's heights.
pub fn all_coins_are_worth_at_most_the_subsidies()
    ensures { (params : Params) (valid : Triples) (es : List Entry) (n : ℕ)
        → let r = regtest params valid in let s = state_at (chainstate params valid) es n in
        total (coins r ledger s) ≤ℤ pos (subsidies subsidy_of (height s.blocks (active r s))) }
{}

/// A submission never lowers the best block: a branch that takes over is at least as high as the one before it. So what a
/// confirmed payment stands on is taken back by no lower branch, unless somebody marks a block.
pub fn a_submission_never_lowers_the_best_block()
    ensures { (params : Params) (valid : Triples) (es : List Entry) (bytes : List ℕ) (now : ℕ)
        → let m = chainstate params valid in let r = regtest params valid in
        let s = state_after_entries m m.opening es in
        let t = state_left s (m.step s (command.Submit bytes now)) in
        height s.blocks (active r s) ≤ height t.blocks (active r t) }
{}

/// **What confirmations mean**: a coin stays on any other branch that has the block which made it, as long as no block of
/// that branch above it spends the coin. So a coin with c confirmations is gone only if it was spent, or if a branch took
/// over that takes c blocks or more back.
pub fn a_coin_is_gone_only_if_it_is_spent_or_its_block_is_taken_back()
    ensures { (params : Params) (valid : Triples) (t : Blocks Block) (outpoint : OutPoint)
        (coin : Coin) (active other made : ℕ)
        → let r = regtest params valid in
        IsCoinOf r t active made outpoint coin → other ≤ length t → on t other made ≡ true
        → IsUnspentAbove t other made outpoint
        → coin_map.get (coins_at r ledger t other) outpoint ≢ None }
{}

/// **What n confirmations are worth.** A coin that was read with n confirmations is the same coin, with its value, script, height
/// and mark, in each later state whose active branch still has the block n - 1 below the best one of that moment, unless a block
/// of that branch above it spends the coin. A branch that hasn't that block any more took n blocks back or more.
pub fn a_coin_is_the_same_until_its_block_is_taken_back()
    ensures same { (params : Params) (valid : Triples) (es later : List Entry)
        (outpoint : OutPoint) (coin : Coin) (n made : ℕ)
        → let m = chainstate params valid in let r = regtest params valid in
        let s = state_after_entries m m.opening es in let t = state_after_entries m s later in
        m.coin s outpoint ≡ Some (coin, n) → IsBelowBest r s n made
        → on t.blocks (active r t) made ≡ true → IsUnspentAbove t.blocks (active r t) made outpoint
        → m.coin t outpoint ≡ Some (coin, confirmations r t coin.height) }
    ensures taken_back { (params : Params) (valid : Triples) (es later : List Entry) (n made x : ℕ)
        → let m = chainstate params valid in let r = regtest params valid in
        let s = state_after_entries m m.opening es in let t = state_after_entries m s later in
        IsBelowBest r s n made → on t.blocks (active r t) made ≡ false
        → on s.blocks (active r s) x ≡ true → on t.blocks (active r t) x ≡ true
        → height s.blocks x + n ≤ height s.blocks (active r s) }
{}

/// **Opening from a checkpoint and the entries behind it is opening from the whole history**: a history that goes on from a
/// legal one is legal exactly if its tail is legal from the checkpoint, and after both the same is known of signatures, the
/// state is the same, and stamps are the tail's places behind those that came before.
pub fn a_checkpoint_stands_for_its_history()
    ensures legal { (o : Origin) (xs ys : List Entry) (c : Checkpoint)
        → IsLegal o xs → IsCheckpointOf o xs c
        → IsLegal o (xs ++ ys) ↔ IsLegalFrom o c ys }
    ensures known { (o : Origin) (xs ys : List Entry) (c : Checkpoint)
        → IsLegal o xs → IsCheckpointOf o xs c
        → known_in o (xs ++ ys) ≡ known_from o c ys }
    ensures state { (o : Origin) (xs ys : List Entry) (c : Checkpoint)
        → IsLegal o xs → IsCheckpointOf o xs c → IsLegalFrom o c ys
        → Under (known_from o c ys) (λ valid.
        state_after o valid (xs ++ ys) ≡ state_after_entries (machine o valid) c.state ys) }
    ensures stamps { (o : Origin) (xs ys : List Entry) (c : Checkpoint)
        → IsCheckpointOf o xs c → length (xs ++ ys) ≡ c.count + length ys }
{}

/// So a checkpoint may be made from the one before it and the tail alone, and stands for the whole history again.
pub fn a_checkpoint_is_made_from_the_last_one()
    ensures { (o : Origin) (xs ys : List Entry) (c next : Checkpoint)
        → IsLegal o xs → IsCheckpointOf o xs c → IsLegalFrom o c ys
        → next.count ≡ c.count + length ys
        → Under (known_from o c ys) (λ valid.
        state_after_entries (machine o valid) c.state ys ≡ next.state)
        → found_from c.found ys ≡ next.found
        → IsCheckpointOf o (xs ++ ys) next }
{}

/// **What is legal from a checkpoint that was reached is the end of a history that is legal from genesis**, with the same
/// state and stamps; and genesis is reached.
pub fn what_goes_on_from_a_checkpoint_is_a_history()
    ensures begins { (o : Origin) → IsReached o genesis }
    ensures goes_on { (o : Origin) (c : Checkpoint) (ys : List Entry)
        → IsReached o c → IsLegalFrom o c ys
        → (xs : List Entry) × IsLegal o (xs ++ ys) × (length (xs ++ ys) ≡ c.count + length ys)
        × Under (known_from o c ys) (λ valid.
        state_after o valid (xs ++ ys) ≡ state_after_entries (machine o valid) c.state ys) }
{}

/// A block's ids with witnesses (BIP 141), where its transactions have none: 32 zero bytes for the coinbase, and the ids.
pub fn without_witnesses_ids_are_ids()
    ensures { (coinbase : Tx) (txs : List Tx)
        → AllByRecursion (λ t. ¬ (t.inputs ≡ []) × (has_witness t.witnesses ≡ false)) txs
        → witness_ids_of (coinbase ∷ txs) ≡ record { 0 = replicate 32 0 } ∷ ids_of txs }
{}
