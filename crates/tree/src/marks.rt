//! Marks: which branches they spoil, and which blocks `reconsiderblock` clears of them.

ghost use Rattle.std.specs.Prelude.{◌≡◌, ℕ, ◌<◌, ◌==◌, ◌||◌, ◌&&◌, nat_lt, not, length, [], true, false, slice_index_or, IfOk};
ghost use Rattle.tree.specs.Branches.{on};
ghost use Rattle.tree.specs.Nodes.{blocks_of, mark_at, state_of};
ghost use Rattle.tree.specs.inside.Nodes.{AreNodes, AreRemarked, AreUsable, SameFlags};

use crate::block_index::{BlockIndex, Mark};
use std::alloc::Global;
use wire::Memory;

/// Of each place, whether its block is the one at `place`, a descendant of it, or an ancestor.
pub(crate) fn related(
    alloc: Global,
    nodes: &[BlockIndex],
    place: usize,
) -> Result<Vec<bool>, Memory>
    requires nodes { AreNodes (blocks_of nodes.now) nodes.now }
    requires kept { place < length nodes.now }
    ensures len { IfOk result (λ related. length related.items ≡ length nodes.now) }
    ensures related { let t = blocks_of nodes.now in
        IfOk result (λ related. (x : ℕ) → x < length nodes.now →
        slice_index_or related.items x false ≡ (on t place x || on t x place)) }
{
    let mut related = descendants(alloc, nodes, place)?;
    add_ancestors(nodes, place, &mut related);
    Ok(related)
}

/// Of each place, whether its block is this one or a descendant of it.
fn descendants(alloc: Global, nodes: &[BlockIndex], place: usize) -> Result<Vec<bool>, Memory>
    requires nodes { AreNodes (blocks_of nodes.now) nodes.now }
    ensures len { IfOk result (λ down. length down.items ≡ length nodes.now) }
    ensures down { IfOk result (λ down. (x : ℕ) → x < length nodes.now →
        slice_index_or down.items x false ≡ on (blocks_of nodes.now) x place) }
{
    let mut down = Vec::new(alloc);
    for next in 0..nodes.len() {
        let stands = stands_on(&down, next, nodes[next].parent, place);
        down.push(stands)?;
    }
    Ok(down)
}

/// Whether the block is this one, or its parent is a descendant of it.
fn stands_on(down: &[bool], next: usize, parent: usize, place: usize) -> bool
    requires { 0 < next → parent < length down.now }
    ensures { result ≡ ((next == place) ||
        (nat_lt 0 next && slice_index_or down.now parent false)) }
{
    next == place || (next > 0 && down[parent])
}

fn add_ancestors(nodes: &[BlockIndex], place: usize, related: &mut Vec<bool>)
    requires nodes { AreNodes (blocks_of nodes.now) nodes.now }
    requires kept { place < length nodes.now }
    requires len { length related.old.items ≡ length nodes.now }
    ensures len { length related.new.items ≡ length nodes.now }
    ensures up { (x : ℕ) → x < length nodes.now → slice_index_or related.new.items x false ≡
        (on (blocks_of nodes.now) place x || slice_index_or related.old.items x false) }
{
    let mut next = place;
    'down: loop {
        related[next] = true;
        if next == 0 {
            return;
        }
        next = nodes[next].parent;
    }
}

/// Marks a block, and works out anew which branches are usable.
pub(crate) fn mark_block(nodes: &[BlockIndex], marks: &mut [Mark], place: usize)
    requires nodes { AreNodes (blocks_of nodes.now) nodes.now }
    requires count { length marks.old ≡ length nodes.now }
    requires usable { AreUsable (state_of nodes.now marks.old []) marks.old (length nodes.now) }
    requires not_genesis { 0 < place }
    requires kept { place < length nodes.now }
    ensures { AreRemarked nodes.now marks.old marks.new (λ p bad. bad || (p == place)) }
{
    marks[place].bad = true;
    spoil(nodes, marks, place);
}

/// Takes the marks from these blocks, and works out anew which branches are usable.
pub(crate) fn take_marks(nodes: &[BlockIndex], marks: &mut [Mark], related: &[bool])
    requires nodes { AreNodes (blocks_of nodes.now) nodes.now }
    requires some { 0 < length nodes.now }
    requires count { length marks.old ≡ length nodes.now }
    requires usable { AreUsable (state_of nodes.now marks.old []) marks.old (length nodes.now) }
    requires genesis { (mark_at marks.old 0).bad ≡ false }
    requires related { length related.now ≡ length nodes.now }
    ensures { AreRemarked nodes.now marks.old marks.new
        (λ p bad. bad && not (slice_index_or related.now p false)) }
{
    unmark(marks, related);
    spoil(nodes, marks, 1);
}

fn unmark(marks: &mut [Mark], related: &[bool])
    requires { length marks.old ≡ length related.now }
    ensures len { length marks.new ≡ length marks.old }
    ensures marks { (x : ℕ) → x < length marks.old → mark_at marks.new x ≡
        record (mark_at marks.old x) {
          bad = (mark_at marks.old x).bad &&
              not (slice_index_or related.now x false);
        } }
{
    for place in 0..marks.len() {
        if related[place] {
            marks[place].bad = false;
        }
    }
}

/// Works out anew, from the place `from` on, which branches have no marked block; those before it are known.
/// A block comes after its parent, so one pass does.
fn spoil(nodes: &[BlockIndex], marks: &mut [Mark], from: usize)
    requires start { 0 < from }
    requires nodes { AreNodes (blocks_of nodes.now) nodes.now }
    requires same { length marks.old ≡ length nodes.now }
    requires before { AreUsable (state_of nodes.now marks.old []) marks.old from }
    ensures same { length marks.new ≡ length nodes.now }
    ensures flags { (p : ℕ) → SameFlags (mark_at marks.new p) (mark_at marks.old p) }
    ensures usable { AreUsable (state_of nodes.now marks.old []) marks.new (length nodes.now) }
{
    for place in from..nodes.len() {
        let usable = is_usable(marks, place, nodes[place].parent);
        marks[place].usable = usable;
    }
}

/// Whether neither the block nor the branch of its parent is marked.
fn is_usable(marks: &[Mark], place: usize, parent: usize) -> bool
    requires place { place < length marks.now }
    requires parent { parent < length marks.now }
    ensures { result ≡ (not (mark_at marks.now place).bad && (mark_at marks.now parent).usable) }
{
    !marks[place].bad && marks[parent].usable
}
