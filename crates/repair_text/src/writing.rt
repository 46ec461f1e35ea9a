// The lines of a repair.
ghost use Rattle.std.specs.Prelude.{◌≡◌, ◌≢◌, ◌++◌, ◌<◌, ℕ, Bool, List, length, None, Some};
ghost use Rattle.std.specs.Prelude.{is_some, slice_index_or, OnErr, OnOk, if◌then◌else◌};
ghost use Rattle.std.specs.List.{AllByRecursion};
ghost use Rattle.block_model.specs.declared.parts.Weight.{Weight};
ghost use Rattle.block_model.specs.declared.parts.Weight.TheVariants.{Unknown};
ghost use Rattle.cfg_text.specs.Fun.{function_of};
ghost use Rattle.flow_model.specs.Cut.{most_out};
ghost use Rattle.flow_model.specs.Network.{arcs_of};
ghost use Rattle.flow_model.specs.Repair.{AreCounts};
ghost use Rattle.flow_model.specs.Sides.{AreSides};
ghost use Rattle.flow_network.specs.Flow.{counts_of, holds};
ghost use Rattle.repair_model.specs.Bits.{FitsBits};
ghost use Rattle.repair_model.specs.Repair as told;
ghost use Rattle.repair_model.specs.Text as model;
ghost use Rattle.repair_text.specs.Repair.{AreAsMany, AreSmall, AreToldWeights, IsOf};
ghost use Rattle.repair_text.specs.Repair.{cut_by, flow_by, repair_by, weights_of};

use crate::line::{
    push_begin_of_cut, push_begin_of_flow, push_count, push_edge, push_end_of_cut,
    push_end_of_flow, push_sides,
};
use cfg_text::{Edge, Fun, Weight};
use flow_network::{Flow, Net, Nodes, Prices, Solved, cost, cut_sums};
use refusal::NoMemory;

/// How many bytes the line of a block takes as a rule.
const BLOCK_ROOM: usize = 64;

/// How many bytes the line of an edge takes as a rule.
const EDGE_ROOM: usize = 32;

/// Appends the lines of the repair of a function: `fun` is the function of `net`, and what was
/// solved is of `net`. With `edges` each edge of a flow is told with its weight.
///
/// A flow is `# function NAME flow`, then a line `# block N weight W count C in P out Q` for each
/// block, a line `# edge N M count C` or `# edge N M weight W count C` for each edge, and
/// `# end COST`. A cut is `# function NAME cut R`, then `# block N weight W in S out T` for each
/// block, and `# end LOWER UPPER`. `W` is `?` where no sample could have told; `R`, `S` and `T` are
/// 1 for a side in the cut, and else 0.
///
/// Where weights are below 2^44, each number is within the bits in which it is read.
///
/// # Errors
/// `NoMemory`, and `out` is as it was.
pub fn write(
    fun: &Fun<'_>,
    net: &Net,
    weights: &[Weight],
    edges: Option<&[Weight]>,
    solved: &Solved,
    out: &mut Vec<u8>,
) -> Result<(), NoMemory>
    requires blocks { length fun.now.blocks ≡ length net.now.blocks }
    requires edges { length fun.now.edges ≡ length net.now.edges }
    requires weighed { length weights.now ≡ length net.now.blocks }
    requires edges_weighed { AreToldWeights net.now edges }
    requires solved { IsOf net.now solved.now }
    ensures written { OnOk result (out.new.items ≡ out.old.items
        ++ model.repair_text (is_some edges.entry) (function_of fun.now)
        (repair_by net.now weights.now (weights_of edges.entry) solved.now)) }
    ensures fits { OnOk result (AreSmall weights.now → AreSmall (weights_of edges.entry)
        → AllByRecursion FitsBits
        (model.lines_of_repair (is_some edges.entry) (function_of fun.now)
        (repair_by net.now weights.now (weights_of edges.entry) solved.now))) }
    ensures unchanged { OnErr result (out.new.items ≡ out.old.items) }
{
    let mut text = Vec::with_capacity(*out.allocator(), room_for(net))?;
    match solved {
        Solved::Flow(flow, prices) => {
            push_flow(&mut text, fun, net, weights, edges, flow, prices)?;
        }
        Solved::Cut(nodes) => push_cut(&mut text, fun, net, weights, nodes)?,
    }
    out.extend_from_slice(&text)?;
    Ok(())
}

/// How many bytes the lines of most repairs take: with as many taken at once, few lists grow.
fn room_for(net: &Net) -> usize {
    BLOCK_ROOM * (net.block_count() + 1) + EDGE_ROOM * net.edge_count()
}

/// Appends the lines of a repair by counts.
fn push_flow(
    text: &mut Vec<u8>,
    fun: &Fun<'_>,
    net: &Net,
    weights: &[Weight],
    edges: Option<&[Weight]>,
    flow: &Flow,
    prices: &Prices,
) -> Result<(), NoMemory>
    requires blocks { length fun.now.blocks ≡ length net.now.blocks }
    requires edges { length fun.now.edges ≡ length net.now.edges }
    requires weighed { length weights.now ≡ length net.now.blocks }
    requires edges_weighed { AreToldWeights net.now edges }
    requires counted { AreCounts net.now (counts_of flow.now) }
    requires priced { AreSides net.now prices.now.ins prices.now.outs }
    ensures written { OnOk result (text.new.items ≡ text.old.items
        ++ model.repair_text (is_some edges.entry) (function_of fun.now)
        (flow_by net.now weights.now (weights_of edges.entry) flow.now prices.now)) }
    ensures fits { OnOk result (AreSmall weights.now → AreSmall (weights_of edges.entry)
        → AllByRecursion FitsBits
        (model.lines_of_repair (is_some edges.entry) (function_of fun.now)
        (flow_by net.now weights.now (weights_of edges.entry) flow.now prices.now))) }
{
    push_begin_of_flow(text, fun.name)?;
    push_counts(text, net.block_count(), weights, flow, prices)?;
    push_edges(text, fun.edges.as_slice(), edges, flow, prices)?;
    push_end_of_flow(text, cost(net, flow))?;
    Ok(())
}

/// Appends the lines of a cut.
fn push_cut(
    text: &mut Vec<u8>,
    fun: &Fun<'_>,
    net: &Net,
    weights: &[Weight],
    nodes: &Nodes,
) -> Result<(), NoMemory>
    requires blocks { length fun.now.blocks ≡ length net.now.blocks }
    requires weighed { length weights.now ≡ length net.now.blocks }
    requires sided { AreSides net.now nodes.now.ins nodes.now.outs }
    requires bounded { most_out (holds nodes.now) (arcs_of net.now) ≢ None }
    ensures written { OnOk result ((weighed : Bool) → text.new.items
        ≡ text.old.items ++ model.repair_text weighed (function_of fun.now)
        (cut_by net.now weights.now nodes.now)) }
    ensures fits { OnOk result ((weighed : Bool) → AreSmall weights.now
        → AllByRecursion FitsBits (model.lines_of_repair weighed (function_of fun.now)
        (cut_by net.now weights.now nodes.now))) }
{
    push_begin_of_cut(text, fun.name, nodes.root)?;
    push_nodes(text, net.block_count(), weights, nodes)?;
    let Some((least, most)) = cut_sums(net, nodes) else {
        return Ok(());
    };
    push_end_of_cut(text, least, most)?;
    Ok(())
}

/// Appends the lines of edges with their counts.
fn push_edges(
    text: &mut Vec<u8>,
    edges: &[Edge],
    weights: Option<&[Weight]>,
    flow: &Flow,
    prices: &Prices,
) -> Result<(), NoMemory>
    requires weighed { AreAsMany (length edges.now) weights }
    requires counted { length flow.now.edges ≡ length edges.now }
    ensures written { OnOk result (text.new.items ≡ text.old.items
        ++ model.text_of_lines (model.lines_of_edges (is_some weights.entry) edges.now
        (weights_of weights.entry)
        (told.flow (counts_of flow.now) prices.now.ins prices.now.outs))) }
    ensures fits { OnOk result (AreSmall (weights_of weights.entry) → AllByRecursion FitsBits
        (model.lines_of_edges (is_some weights.entry) edges.now (weights_of weights.entry)
        (told.flow (counts_of flow.now) prices.now.ins prices.now.outs))) }
{
    let counts = flow.edges.as_slice();
    for (place, edge) in edges.iter().enumerate() {
        push_edge(
            text,
            edge.from,
            edge.to,
            weight_at(weights, place),
            counts[place],
        )?;
    }
    Ok(())
}

/// The weight of the edge in this place, if weights are told.
fn weight_at(weights: Option<&[Weight]>, place: usize) -> Option<Weight>
    requires { (count : ℕ) × (place < count) × AreAsMany count weights }
    ensures { result ≡ (if is_some weights.entry
        then Some (slice_index_or (weights_of weights.entry) place Unknown)
        else None) }
{
    match weights {
        Some(weights) => Some(weights[place]),
        None => None,
    }
}

/// Appends the lines of blocks with their counts and prices.
fn push_counts(
    text: &mut Vec<u8>,
    count: usize,
    weights: &[Weight],
    flow: &Flow,
    prices: &Prices,
) -> Result<(), NoMemory>
    requires weighed { length weights.now ≡ count }
    requires counted { length flow.now.blocks ≡ count }
    requires entered { length prices.now.ins ≡ count }
    requires left { length prices.now.outs ≡ count }
    ensures written { OnOk result (text.new.items ≡ text.old.items
        ++ model.text_of_lines (model.lines_of_blocks count weights.now
        (told.flow (counts_of flow.now) prices.now.ins prices.now.outs))) }
    ensures fits { OnOk result (AreSmall weights.now → AllByRecursion FitsBits
        (model.lines_of_blocks count weights.now
        (told.flow (counts_of flow.now) prices.now.ins prices.now.outs))) }
{
    let counts = flow.blocks.as_slice();
    let ins = prices.ins.as_slice();
    let outs = prices.outs.as_slice();
    for number in 0..count {
        push_count(text, number, weights[number], counts[number], ins, outs)?;
    }
    Ok(())
}

/// Appends the lines of blocks with the sides that a cut has.
fn push_nodes(
    text: &mut Vec<u8>,
    count: usize,
    weights: &[Weight],
    nodes: &Nodes,
) -> Result<(), NoMemory>
    requires weighed { length weights.now ≡ count }
    requires entered { length nodes.now.ins ≡ count }
    requires left { length nodes.now.outs ≡ count }
    ensures written { OnOk result (text.new.items ≡ text.old.items
        ++ model.text_of_lines (model.lines_of_blocks count weights.now
        (told.cut nodes.now.root nodes.now.ins nodes.now.outs))) }
    ensures fits { OnOk result (AreSmall weights.now → AllByRecursion FitsBits
        (model.lines_of_blocks count weights.now
        (told.cut nodes.now.root nodes.now.ins nodes.now.outs))) }
{
    let ins = nodes.ins.as_slice();
    let outs = nodes.outs.as_slice();
    for number in 0..count {
        push_sides(text, number, weights[number], ins[number], outs[number])?;
    }
    Ok(())
}
