// A network with its arcs by side.
ghost use Rattle.std.specs.Prelude.{◌≡◌, ◌*◌, ◌<◌, ◌≤◌, length, IfOk};
ghost use Rattle.block_model.specs.Limits.{max_blocks, max_edges};
ghost use Rattle.flow_model.specs.Network.{arcs_of, network_of};
ghost use Rattle.flow_model.specs.Sound.{AreWeights, IsNet, IsSound};
ghost use Rattle.scaling_model.specs.Coarse.{coarse};
ghost use Rattle.flow_network.specs.Net.{heads_of, tails_of};
ghost use Rattle.flow_network.specs.Rows.{places_of};

use crate::arcs::arcs_by;
use crate::coarse::coarse_arcs;
use crate::rows::KeyRows;
use cfg_text::{Fun, Weight};
use flow_model::Arc;
use refusal::NoMemory;
use std::alloc::Global;
use std::marker::Model;

/// The network of a function. Its arcs stand in this order: the calls', then one for each block,
/// one for each edge, and for each exit that of its returns.
///
/// Side 0 is the root; block `b` is entered at side `1 + 2 * b` and left at side `2 + 2 * b`. There
/// are fewer than 2^19 arcs, bounds and weights are below 2^44, a unit costs at most 40, and no
/// lower bound is above its upper bound.
// Why: It is the network of some sound function, and callers take the limits from the law. Arcs are
// found by node in compressed rows.
#[derive(Debug, Drop)]
pub struct Net {
    arcs: Vec<Arc>,
    blocks: usize,
    edges: usize,
    leaving: KeyRows,
    entering: KeyRows,
}

// Clauses see the network.
impl Model for Net {
    ghost use Rattle.flow_model.specs.Network.{Network};
    ghost use Rattle.flow_network.specs.Net.{KeepsNet, network_by};

    ghost Value = { Network };

    ghost view = { λ net. network_by net.arcs.items net.blocks net.edges };

    ghost invariant = { λ net.
        KeepsNet net.arcs.items net.blocks net.edges net.leaving net.entering };
}

impl Net {
    /// The arcs in their order.
    pub fn arcs(&self) -> &[Arc]
        ensures arcs { result.now ≡ arcs_of self.now }
        ensures of_a_function { IsNet self.now }
    {
        &self.arcs
    }

    /// How many blocks the function has.
    pub fn block_count(&self) -> usize
        ensures value { result ≡ length self.now.blocks }
        ensures few { result ≤ max_blocks }
    {
        self.blocks
    }

    /// How many edges the function has.
    pub fn edge_count(&self) -> usize
        ensures value { result ≡ length self.now.edges }
        ensures few { result ≤ max_edges }
    {
        self.edges
    }

    /// The arcs of the blocks.
    pub fn blocks(&self) -> &[Arc]
        ensures arcs { result.now ≡ self.now.blocks }
        ensures of_a_function { IsNet self.now }
    {
        &self.arcs[1..1 + self.blocks]
    }

    /// The arcs of the edges.
    pub fn edges(&self) -> &[Arc]
        ensures arcs { result.now ≡ self.now.edges }
        ensures of_a_function { IsNet self.now }
    {
        &self.arcs[1 + self.blocks..1 + self.blocks + self.edges]
    }

    /// The arcs of the returns.
    fn returns(&self) -> &[Arc]
        ensures { result.now ≡ self.now.returns }
    {
        &self.arcs[1 + self.blocks + self.edges..]
    }

    /// The places in `arcs` of those that leave a side, ascending.
    pub fn leaving(&self, side: u32) -> &[u32]
        requires { side ≤ 2 * length self.now.blocks }
        ensures { result.now ≡ places_of side (tails_of (arcs_of self.now)) }
    {
        self.leaving.row(side)
    }

    /// The places in `arcs` of those that enter a side, ascending.
    pub fn entering(&self, side: u32) -> &[u32]
        requires { side ≤ 2 * length self.now.blocks }
        ensures { result.now ≡ places_of side (heads_of (arcs_of self.now)) }
    {
        self.entering.row(side)
    }

    /// This network in units of 2^`shift`: lower bounds are rounded down, upper bounds and weights
    /// are rounded up. It is the network of a function, and a set of sides that is a cut of it is a
    /// cut of this one.
    ///
    /// Source: "Network Flows", 10.2.
    pub fn coarse(&self, alloc: Global, shift: u32) -> Result<Net, NoMemory>
        requires { shift < 64 }
        ensures { IfOk result (λ net. net ≡ coarse shift self.now) }
    {
        let calls = self.arcs[0];
        let returns = self.returns();
        let arcs = coarse_arcs(alloc, calls, self.blocks(), self.edges(), returns, shift)?;
        let leaving = self.leaving.copy(alloc)?;
        let entering = self.entering.copy(alloc)?;
        Ok(Net {
            arcs,
            blocks: self.blocks,
            edges: self.edges,
            leaving,
            entering,
        })
    }
}

/// The network of a function, with a weight for each block and each edge.
// Why: Asked for are a block, the limits, edges between blocks, and bounds in order and below 2^44;
// overlaps and repeated edges do not matter.
pub fn net_of(
    alloc: Global,
    fun: &Fun<'_>,
    weights: &[Weight],
    edge_weights: &[Weight],
) -> Result<Net, NoMemory>
    requires sound { IsSound fun.now.blocks fun.now.edges }
    requires weighed { AreWeights (length fun.now.blocks) weights.now }
    requires edges_weighed { AreWeights (length fun.now.edges) edge_weights.now }
    ensures { IfOk result (λ net.
        net ≡ network_of fun.now.blocks fun.now.edges weights.now edge_weights.now) }
{
    let blocks = fun.blocks.as_slice();
    let edges = fun.edges.as_slice();
    let arcs = arcs_by(alloc, blocks, edges, weights, edge_weights)?;
    let sides = 2 * blocks.len() + 1;
    let leaving = KeyRows::of(alloc, &tails(alloc, &arcs)?, sides)?;
    let entering = KeyRows::of(alloc, &heads(alloc, &arcs)?, sides)?;
    Ok(Net {
        arcs,
        blocks: blocks.len(),
        edges: edges.len(),
        leaving,
        entering,
    })
}

/// The nodes that arcs leave.
fn tails(alloc: Global, arcs: &[Arc]) -> Result<Vec<u32>, NoMemory>
    ensures { IfOk result (λ tails. tails.items ≡ tails_of arcs.now) }
{
    Ok(arcs.iter().map(|arc| arc.tail).collect(alloc)?)
}

/// The nodes that arcs enter.
fn heads(alloc: Global, arcs: &[Arc]) -> Result<Vec<u32>, NoMemory>
    ensures { IfOk result (λ heads. heads.items ≡ heads_of arcs.now) }
{
    Ok(arcs.iter().map(|arc| arc.head).collect(alloc)?)
}
