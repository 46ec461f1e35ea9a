// Arcs in coarser units.
ghost use Rattle.std.specs.Prelude.{◌≡◌, ◌<◌, ◌++◌, ◌∷◌, map, IfOk, OnOk};
ghost use Rattle.scaling_model.specs.Coarse as model;

use flow_model::Arc;
use refusal::NoMemory;
use std::alloc::Global;

/// The arcs of a network in their order, those of blocks and edges in units of 2^`shift`.
pub(crate) fn coarse_arcs(
    alloc: Global,
    calls: Arc,
    blocks: &[Arc],
    edges: &[Arc],
    returns: &[Arc],
    shift: u32,
) -> Result<Vec<Arc>, NoMemory>
    requires { shift < 64 }
    ensures { IfOk result (λ arcs. arcs.items
        ≡ calls ∷ (map (model.coarse_arc shift) blocks.now
        ++ (map (model.coarse_arc shift) edges.now ++ returns.now))) }
{
    let mut arcs = Vec::new(alloc);
    arcs.push(calls)?;
    push_coarse(&mut arcs, blocks, shift)?;
    push_coarse(&mut arcs, edges, shift)?;
    push_all(&mut arcs, returns)?;
    Ok(arcs)
}

/// Appends arcs in units of 2^`shift`.
fn push_coarse(arcs: &mut Vec<Arc>, more: &[Arc], shift: u32) -> Result<(), NoMemory>
    requires { shift < 64 }
    ensures { OnOk result
        (arcs.new.items ≡ arcs.old.items ++ map (model.coarse_arc shift) more.now) }
{
    for arc in more {
        arcs.push(coarse_arc(arc, shift))?;
    }
    Ok(())
}

/// Appends arcs as they are.
fn push_all(arcs: &mut Vec<Arc>, more: &[Arc]) -> Result<(), NoMemory>
    ensures { OnOk result (arcs.new.items ≡ arcs.old.items ++ more.now) }
{
    for arc in more {
        arcs.push(*arc)?;
    }
    Ok(())
}

/// An arc in units of 2^`shift`.
fn coarse_arc(arc: &Arc, shift: u32) -> Arc
    requires { shift < 64 }
    ensures { result ≡ model.coarse_arc shift arc.now }
{
    Arc {
        lower: arc.lower >> shift,
        upper: arc.upper.map(|upper| begun_units(upper, shift)),
        weight: begun_units(arc.weight, shift),
        ..*arc
    }
}

/// How many units a number takes, begun ones too.
fn begun_units(number: u64, shift: u32) -> u64
    requires { shift < 64 }
    ensures { result ≡ model.begun_units shift number }
{
    number.div_ceil(1 << shift)
}
