//! What holds of every tree, whatever its blocks are.

ghost use Rattle.std.specs.Prelude.{◌≡◌, ℕ, ◌≤◌, ◌<◌, ◌↔◌, ◌⊎◌, suc, true, length, List, Some};
ghost use Rattle.block.specs.Identity.{id_of};
ghost use Rattle.tree.specs.Branches.{Blocks, has, on, height, parent_at};
ghost use Rattle.tree.specs.State.{State, rank_in, beats, with_call};
ghost use Rattle.tree.specs.Names.{names, genesis};
ghost use Rattle.tree.specs.Sound.{Precedes};
ghost use Rattle.tree.specs.laws.Calls.{first_called};

use block::laws::genesis_is_its_parts;

/// A block is better where it is higher; as high and called precious later; or as high, neither called, and earlier.
pub fn better_is_by_height_rank_and_arrival<B>()
    ensures { (s : State B) (a b : ℕ) → (beats s a b ≡ true) ↔ Precedes s a b }
{}

/// Of two blocks one is better, and not the other.
pub fn of_two_blocks_one_is_better<B>()
    ensures one { (s : State B) (a b : ℕ) → (a ≡ b → ⊥) → (beats s a b ≡ true) ⊎
        (beats s b a ≡ true) }
    ensures not_both { (s : State B) (a b : ℕ) → beats s a b ≡ true → beats s b a ≡ true → ⊥ }
    ensures through { (s : State B) (a b c : ℕ) → beats s a b ≡ true → beats s b c ≡ true →
        beats s a c ≡ true }
{}

/// A block that is called precious is better than all that aren't higher, and between two others nothing changes.
pub fn a_call_raises_one_block<B>()
    ensures raised { (s : State B) (p d : ℕ) → (p ≡ d → ⊥) → height s.blocks d ≤ height s.blocks p →
        beats (with_call s p) p d ≡ true }
    ensures others { (s : State B) (p a b : ℕ) → (p ≡ a → ⊥) → (p ≡ b → ⊥) →
        beats (with_call s p) a b ≡ beats s a b }
{}

/// Of two blocks that were called, the one called later has the higher rank: it comes first in the list that
/// has each block once, where its last call put it.
pub fn the_rank_is_the_place_of_the_last_call()
    ensures { (calls : List ℕ) (a b : ℕ) → has calls a ≡ true → has calls b ≡ true → (a ≡ b → ⊥) →
        (rank_in calls b < rank_in calls a) ↔ (first_called calls a b ≡ Some a) }
{}

/// A block's parent came before it, and is one lower.
pub fn a_block_is_one_higher_than_its_parent<B>()
    ensures { (t : Blocks B) (p : ℕ) → 0 < p → p ≤ length t → (parent_at t p < p) ×
        (height t p ≡ suc (height t (parent_at t p))) × (on t p (parent_at t p) ≡ true) }
{}

/// The id of genesis is its header's, though nobody hashes it.
pub fn genesis_has_the_id_of_its_header()
    ensures { id_of genesis.header ≡ names.genesis_id }
{
    genesis_is_its_parts();
}
