//! What holds of every chainstate, whatever its blocks and coins are, and of regtest's.

ghost use Rattle.std.specs.Prelude.{◌≡◌, ℕ, ◌≤◌, ◌<◌, ◌↔◌, ◌&&◌, suc, ℤ, pos, ◌≤ℤ◌, true, false, length, ◌∷◌, ◌++◌, List, None, Some, IsSomeAnd};
ghost use Rattle.txn.specs.declared.reason.Reason.{Reason};
ghost use Rattle.hash.specs.declared.id.Id.{Id};
ghost use Rattle.block.specs.declared.block.Block.{Block};
ghost use Rattle.block.specs.Reward.{subsidy_of};
ghost use Rattle.signatures.specs.Triple.{Triples};
ghost use Rattle.coins.specs.Coins.{total};
ghost use Rattle.rules.specs.declared.params.Params.{Params};
ghost use Rattle.connect.specs.Scripts.{IsConnectFault};
ghost use Rattle.tree.specs.Branches.{branch, blocks_at, height, place_of};
ghost use Rattle.tree.specs.State.{State, has_no_mark, beats, opening, with_block, with_call};
ghost use Rattle.tree.specs.Sound.{IsBest};
ghost use Rattle.model.specs.declared.reply.SubmitReply.TheVariants.{Accepted, Inconclusive, Rejected};
ghost use Rattle.model.specs.declared.reply.MarkReply.TheVariants.{Done};
ghost use Rattle.model.specs.Rules.{Rules};
ghost use Rattle.model.specs.Valid.{branch_connects};
ghost use Rattle.model.specs.Settle.{active, is_candidate, becomes_seen, becomes_bad, settle};
ghost use Rattle.model.specs.Context.{first_fault};
ghost use Rattle.model.specs.Submission.{submit_says, kept_blocks};
ghost use Rattle.model.specs.Step.{Request, Submit, Precious, mark_says, step, state_after_requests};
ghost use Rattle.model.specs.Commands.{state_after_commands};
ghost use Rattle.model.specs.Replay.{Ledger, replay, coins};
ghost use Rattle.model.specs.Total.{subsidies, IsBounded};
ghost use Rattle.model.specs.Regtest.{setting_on, ledger, AreNotNegative, most_satoshis, regtest};
ghost use Rattle.model.specs.Try.{state_after_try};
ghost use Rattle.model.specs.StateInvariant.{IsSettled, AllKept};
ghost use Rattle.model.specs.Faults.{IsNew, IsFirstFault, Passes, OfCandidate, IdsAreKeptOnce};
ghost use Rattle.tree.specs.Limits.{max_blocks};
ghost use Rattle.model.specs.laws.Tries.{count_without_mark};
ghost use mathlib.Core.List.{IsPrefix};
ghost use Rattle.block.specs.BlockOfBytes.{block_of_bytes};
ghost use Rattle.model.specs.declared.command.Command.{Command};
ghost use Rattle.model.specs.declared.command.Command.TheVariants as command;
ghost use Rattle.model.specs.declared.entry.Entry.{Entry};
ghost use Rattle.model.specs.History.{Legal, state_after_entries};
ghost use Rattle.model.specs.Chainstate.{chainstate};

// ---- the definition of settling in other words

/// Settling sees, of each candidate's branch, the blocks before the first that doesn't connect.
pub fn settling_sees_the_blocks_before_a_fault<B, I>()
    ensures { (r : Rules B I) (s : State B) (x : ℕ)
        → (becomes_seen r s x ≡ true) ↔ OfCandidate r s (λ c. Passes r s.blocks c x) }
{}

/// And it marks that first one.
pub fn settling_marks_the_first_fault<B, I>()
    ensures { (r : Rules B I) (s : State B) (x : ℕ)
        → (becomes_bad r s x ≡ true) ↔ OfCandidate r s (λ c. IsFirstFault r s.blocks c x) }
{}

// ---- settling

/// The active block is the best of those that are usable and have a valid branch, in any state in which genesis isn't
/// marked.
pub fn the_active_block_is_the_best_that_can_be_active<B, I>()
    ensures { (r : Rules B I) (s : State B) → has_no_mark s 0 ≡ true
        → IsBest s (λ p. has_no_mark s p && branch_connects r s.blocks p) (length s.blocks)
        (active r s) }
{}

/// A try of a candidate leaves what settling gives, and which block is active.
pub fn a_try_leaves_what_settling_gives<B, I>()
    ensures { (r : Rules B I) (s : State B) (c : ℕ) → has_no_mark s 0 ≡ true → c ≤ length s.blocks
        → is_candidate r s c ≡ true
        → (settle r (state_after_try r s c) ≡ settle r s) ×
        (active r (state_after_try r s c) ≡ active r s) }
{}

/// A try of a usable block that isn't valid marks one, so tries end.
pub fn a_try_that_fails_marks_a_block<B, I>()
    ensures { (r : Rules B I) (s : State B) (c : ℕ) → c ≤ length s.blocks → has_no_mark s c ≡ true
        → branch_connects r s.blocks c ≡ false
        → count_without_mark (state_after_try r s c) < count_without_mark s }
{}

/// Where the branch of the best usable block is valid, that block is active, and its try settles the state.
pub fn a_valid_best_block_settles_by_its_try<B, I>()
    ensures { (r : Rules B I) (s : State B) (c : ℕ) → has_no_mark s 0 ≡ true
        → IsBest s (has_no_mark s) (length s.blocks) c → branch_connects r s.blocks c ≡ true
        → (active r s ≡ c) × (settle r s ≡ state_after_try r s c) }
{}

/// What is settled stays.
pub fn what_is_settled_stays<B, I>()
    ensures { (r : Rules B I) (s : State B) → has_no_mark s 0 ≡ true
        → settle r (settle r s) ≡ settle r s }
{}

/// A settled state has one candidate, the active block, and it is the best of all usable blocks.
pub fn a_settled_state_has_one_candidate<B, I>()
    ensures only { (r : Rules B I) (s : State B) (d : ℕ) → IsSettled r s → d ≤ length s.blocks
        → is_candidate r s d ≡ true → d ≡ active r s }
    ensures best { (r : Rules B I) (s : State B) → IsSettled r s
        → IsBest s (has_no_mark s) (length s.blocks) (active r s) }
{}

// ---- steps

/// Each state that commands reach from genesis is sound.
pub fn each_reached_state_is_sound<B, I>()
    ensures { (r : Rules B I) (cs : List (Request B I))
        → IsSettled r (state_after_requests r opening cs) }
{}

/// Each of its blocks had no fault by itself and a parent that came before it.
pub fn each_kept_block_has_no_fault_by_itself<B, I>()
    ensures { (r : Rules B I) (cs : List (Request B I))
        → AllKept r (state_after_requests r opening cs).blocks }
{}

/// No two of its blocks have one id.
pub fn ids_are_kept_once<B, I>()
    ensures { (r : Rules B I) (cs : List (Request B I)) → ((i : I) → r.names.same_id i i ≡ true)
        → IdsAreKeptOnce r (state_after_requests r opening cs).blocks }
{}

/// A block with a fault before connection leaves the state.
pub fn a_refused_block_leaves_the_state<B, I>()
    ensures { (r : Rules B I) (s : State B) (now : ℕ) (b : B) (reason : Reason)
        → place_of r.names s.blocks (r.names.id_of b) ≡ None → kept_blocks s < max_blocks
        → first_fault r s now b ≡ Some reason
        → step r s (Submit now b) ≡ submit_says s (Rejected reason) }
{}

/// The parent of a block without one is kept and usable.
pub fn the_parent_of_a_faultless_block_is_usable<B, I>()
    ensures { (r : Rules B I) (s : State B) (now : ℕ) (b : B) → first_fault r s now b ≡ None
        → IsSomeAnd (place_of r.names s.blocks (r.names.parent_of b))
        (λ p. has_no_mark s p ≡ true) }
{}

/// A block on the active one that connects is active and seen, and nothing else changes.
pub fn a_block_on_the_tip_is_seen<B, I>()
    ensures { (r : Rules B I) (s : State B) (now : ℕ) (b : B) → IsSettled r s
        → IsNew r s now b (active r s)
        → r.connect_fault (blocks_at r.names s.blocks (branch s.blocks (active r s))) b ≡ None
        → step r s (Submit now b) ≡ submit_says
        (record (with_block s b (active r s)) { seen = suc (length s.blocks) ∷ s.seen })
        Accepted }
{}

/// One that doesn't is marked, and nothing else changes.
pub fn a_faulty_block_on_the_tip_is_marked<B, I>()
    ensures { (r : Rules B I) (s : State B) (now : ℕ) (b : B) (reason : Reason) → IsSettled r s
        → IsNew r s now b (active r s)
        → r.connect_fault (blocks_at r.names s.blocks (branch s.blocks (active r s))) b ≡ Some
        reason
        → step r s (Submit now b) ≡ submit_says
        (record (with_block s b (active r s)) { bad = suc (length s.blocks) ∷ s.bad })
        (Rejected reason) }
{}

/// A block that isn't better than the active one is there, and nothing else changes.
pub fn a_block_beside_changes_nothing<B, I>()
    ensures { (r : Rules B I) (s : State B) (now : ℕ) (b : B) (p : ℕ) → IsSettled r s
        → IsNew r s now b p
        → beats (with_block s b p) (suc (length s.blocks)) (active r s) ≡ false
        → step r s (Submit now b) ≡ submit_says (with_block s b p) Inconclusive }
{}

/// A block that is new in a settled state and the best usable one there settles it by its one try, valid or not; if it
/// isn't valid, the active block stays. So no next best block is looked for.
pub fn one_try_settles_a_new_block<B, I>()
    ensures { (r : Rules B I) (s : State B) (b : B) (p : ℕ) → IsSettled r s
        → let t = with_block s b p in let n = length t.blocks in
        IsBest t (has_no_mark t) n n
        → (settle r t ≡ state_after_try r t n)
        × ((branch_connects r t.blocks n ≡ true → active r t ≡ n)
        × (branch_connects r t.blocks n ≡ false → active r t ≡ active r s)) }
{}

/// So does a block that is called precious in a settled state and is the best usable one then.
pub fn one_try_settles_a_call<B, I>()
    ensures { (r : Rules B I) (s : State B) (p : ℕ) → IsSettled r s
        → let t = with_call s p in
        IsBest t (has_no_mark t) (length t.blocks) p
        → (settle r t ≡ state_after_try r t p)
        × ((branch_connects r t.blocks p ≡ true → active r t ≡ p)
        × (branch_connects r t.blocks p ≡ false → active r t ≡ active r s)) }
{}

/// A block can be tried before it is kept: where its parent's branch is valid, its own fault over that decides; else the
/// first fault of that branch is the first of its own.
pub fn a_block_is_tried_in_hand<B, I>()
    ensures own { (r : Rules B I) (s : State B) (b : B) (p : ℕ) → p ≤ length s.blocks
        → branch_connects r s.blocks p ≡ true
        → let t = (with_block s b p).blocks in
        let own = r.connect_fault (blocks_at r.names s.blocks (branch s.blocks p)) b in
        (own ≡ None → branch_connects r t (suc (length s.blocks)) ≡ true)
        × ((reason : Reason) → own ≡ Some reason
        → IsFirstFault r t (suc (length s.blocks)) (suc (length s.blocks))) }
    ensures below { (r : Rules B I) (s : State B) (b : B) (p : ℕ) → p ≤ length s.blocks
        → (x : ℕ) → IsFirstFault r s.blocks p x
        → IsFirstFault r (with_block s b p).blocks (suc (length s.blocks)) x }
{}

/// A call for the active block changes its rank alone.
pub fn the_active_block_may_be_called_precious<B, I>()
    ensures { (r : Rules B I) (s : State B) (i : I) → IsSettled r s
        → place_of r.names s.blocks i ≡ Some (active r s)
        → step r s (Precious i) ≡ mark_says (with_call s (active r s)) Done }
{}

/// Another block that is usable, valid and not lower becomes active by a call.
pub fn a_precious_block_becomes_active<B, I>()
    ensures { (r : Rules B I) (s : State B) (i : I) (p : ℕ) → IsSettled r s
        → place_of r.names s.blocks i ≡ Some p → has_no_mark s p ≡ true
        → branch_connects r s.blocks p ≡ true
        → height s.blocks (active r s) ≤ height s.blocks p
        → active r (step r s (Precious i)).0 ≡ p }
{}

// ---- coins

/// The coins of a reached state are worth at most the subsidies of heights 1 to the active one, where the total without
/// coins is 0 and a block without a fault raises the total by at most the subsidy of its height.
pub fn all_coins_are_worth_at_most_the_subsidies<B, I, C>()
    ensures { (r : Rules B I) (ledger : Ledger B C) (total : C → ℤ) (subsidy : ℕ → ℕ)
        (cs : List (Request B I))
        → IsBounded r ledger total subsidy
        → let s = state_after_requests r opening cs in total (coins r ledger s) ≤ℤ pos
        (subsidies subsidy (height s.blocks (active r s))) }
{}

// ---- regtest

/// The fault of connecting a block is the first rule that it breaks over the coins that its branch leaves.
pub fn a_block_connects_by_the_rules_over_its_coins()
    ensures { (params : Params) (triples : Triples) (branch : List Block) (b : Block)
        → IsConnectFault (setting_on params branch) (replay ledger branch) b.txs triples
        ((regtest params triples).connect_fault branch b) }
{}

/// A block without a fault raises the worth of all coins by at most the subsidy of its height.
pub fn a_block_raises_all_coins_by_at_most_its_subsidy()
    ensures { (params : Params) (triples : Triples)
        → IsBounded (regtest params triples) ledger total subsidy_of }
{}

/// Whatever commands came, all coins are worth at most the subsidies of heights 1 to the active one.
pub fn all_coins_of_regtest_are_worth_at_most_the_subsidies()
    ensures { (params : Params) (triples : Triples) (cs : List (Request Block Id))
        → let r = regtest params triples in let s = state_after_requests r opening cs in total
        (coins r ledger s) ≤ℤ pos (subsidies subsidy_of (height s.blocks (active r s))) }
{}

/// And these have an end, so all coins are never worth 15,000 bitcoin.
pub fn all_coins_of_regtest_are_worth_at_most_all_subsidies()
    ensures { (params : Params) (triples : Triples) (cs : List (Request Block Id))
        → let r = regtest params triples in total
        (coins r ledger (state_after_requests r opening cs)) ≤ℤ pos most_satoshis }
{}

/// And none of them is worth less than nothing.
pub fn no_coin_of_regtest_is_worth_less_than_nothing()
    ensures { (params : Params) (triples : Triples) (cs : List (Request Block Id))
        → let r = regtest params triples in AreNotNegative
        (coins r ledger (state_after_requests r opening cs)) }
{}

/// The same of commands as they come, whose bytes may be no block.
pub fn all_coins_that_commands_leave_are_worth_at_most_the_subsidies()
    ensures bounded { (params : Params) (triples : Triples) (cs : List Command) →
        let r = regtest params triples in
        let s = state_after_commands r opening cs in
        total (coins r ledger s) ≤ℤ pos (subsidies subsidy_of (height s.blocks (active r s))) }
    ensures not_negative { (params : Params) (triples : Triples) (cs : List Command) →
        let r = regtest params triples in
        AreNotNegative (coins r ledger (state_after_commands r opening cs)) }
{}

// ---- histories

/// What begins a legal history is legal.
pub fn beginnings_are_legal()
    ensures { (params : Params) (triples : Triples) (seats : ℕ) (front rest : List Entry)
        → Legal (chainstate params triples) seats (front ++ rest)
        → Legal (chainstate params triples) seats front }
{}

/// Of two beginnings of one history the shorter begins the longer.
pub fn beginnings_are_ordered()
    ensures { (a b history : List Entry) → IsPrefix a history → IsPrefix b history
        → length a ≤ length b → IsPrefix a b }
{}

/// The state after a history is the state after its rest, from the state after its beginning on.
pub fn states_follow()
    ensures { (params : Params) (triples : Triples) (front rest : List Entry)
        → let m = chainstate params triples in state_after_entries m opening (front ++ rest) ≡
        state_after_entries m (state_after_entries m opening front) rest }
{}

/// Bytes that are no block are in no legal history.
pub fn undecodable_bytes_stand_nowhere()
    ensures { (params : Params) (triples : Triples) (seats : ℕ) (front rest : List Entry)
        (e : Entry) (bytes : List ℕ) (now : ℕ)
        → Legal (chainstate params triples) seats (front ++ e ∷ rest)
        → e.command ≡ command.Submit bytes now → block_of_bytes bytes ≡ None → ⊥ }
{}
