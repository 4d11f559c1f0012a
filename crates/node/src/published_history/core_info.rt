//! What readers are told of a core.

ghost use Rattle.std.specs.Prelude.{◌≡◌, IfOk, map};
ghost use Rattle.signatures.specs.Triple.{Triples};
ghost use Rattle.tree.specs.Branches.{height};
ghost use Rattle.tree.specs.Tips.{tip_of_id};
ghost use Rattle.model.specs.Regtest.{regtest};
ghost use Rattle.model.specs.Settle.{active, best, tips};
ghost use Rattle.activate.specs.CoreState.{Follows};

use activate::Core;
use std::alloc::Global;
use view::{ChainInfo, Tips};
use wire::Memory;

/// The best block, its height and the tips of a core.
pub(crate) fn chain_info(alloc: Global, core: &Core) -> Result<ChainInfo, Memory>
    ensures best { (triples : Triples) → Follows core.now triples
        → let r = regtest core.now.params triples in
        IfOk result (λ info. info.best ≡ best r core.now.state) }
    ensures height { (triples : Triples) → Follows core.now triples
        → let r = regtest core.now.params triples in
        let s = core.now.state in
        IfOk result (λ info. info.height ≡ height s.blocks (active r s)) }
    ensures tips { (triples : Triples) → Follows core.now triples
        → let r = regtest core.now.params triples in
        IfOk result (λ info. info.tips ≡ map tip_of_id (tips r core.now.state)) }
{
    let tips = core.tips(alloc)?;
    Ok(ChainInfo {
        best: core.best(),
        height: core.height(),
        tips: Tips::from_vec(alloc, tips)?,
    })
}
