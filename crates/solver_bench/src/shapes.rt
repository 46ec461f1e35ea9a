// Made-up networks.
ghost use Rattle.std.specs.Prelude.{◌≡◌, ◌+◌, ◌*◌, ◌^◌, ◌<◌, ◌≤◌, length, IfOk, OnOk};
ghost use Rattle.std.specs.List.{All};
ghost use Rattle.flow_model.specs.Network as model;
ghost use Rattle.flow_model.specs.Sound.{AreWeights, IsSoundBound};
ghost use Rattle.solver_bench.specs.Edges.{AreEdges};

use cfg_text::{Block, Bound, Edge, Fun, Weight};
use flow_network::{Net, net_of};
use item_lists::Items;
use refusal::NoMemory;
use std::alloc::Global;

/// No bound.
const FREE: Bound = Bound {
    lower: 0,
    upper: None,
};

/// A chain from block 0 to the last block, and from each block to the one before it; block 1 is the
/// exit, and block 0 was sampled once.
pub(crate) fn chain(alloc: Global, size: u32) -> Result<Net, NoMemory> {
    let count = size.clamp(2, 65536);
    let mut edges = Vec::new(alloc);
    join(&mut edges, count, 0, count - 1)?;
    for from in 2..count {
        join(&mut edges, count, from, from - 1)?;
    }
    let blocks = blocks_of(alloc, count, 1)?;
    let weights = weights_of(alloc, blocks.len(), Sampled::First)?;
    let edge_weights = weights_of(alloc, edges.len(), Sampled::Nothing)?;
    made(alloc, blocks, edges, &weights, &edge_weights)
}

/// A row of choices of two ways, four blocks each, whose weights are off by up to 3 per cent.
pub(crate) fn diamonds(alloc: Global, size: u32) -> Result<Net, NoMemory> {
    let choices = (size / 4).clamp(1, 16384);
    let count = 4 * choices;
    let mut edges = Vec::new(alloc);
    for choice in 0..choices {
        choose(&mut edges, count, 4 * choice)?;
    }
    let blocks = blocks_of(alloc, count, count - 1)?;
    let weights = weights_of(alloc, blocks.len(), Sampled::All)?;
    let edge_weights = weights_of(alloc, edges.len(), Sampled::Nothing)?;
    made(alloc, blocks, edges, &weights, &edge_weights)
}

/// Blocks that each go on to the next one, every second one to a block further on as well; their
/// weights are those of one way to run, off by up to 3 per cent.
pub(crate) fn jumps(alloc: Global, size: u32) -> Result<Net, NoMemory> {
    let count = size.clamp(2, 65536);
    let mut edges = Vec::new(alloc);
    for from in 0..count - 1 {
        fork(&mut edges, count, from)?;
    }
    let blocks = blocks_of(alloc, count, count - 1)?;
    let flow = flow_of(alloc, count)?;
    let weights = weights_by(alloc, &flow)?;
    let edge_weights = weights_of(alloc, edges.len(), Sampled::Nothing)?;
    made(alloc, blocks, edges, &weights, &edge_weights)
}

/// How the sizes of functions are spread over 5 to 200 blocks.
#[derive(Clone, Copy)]
pub(crate) enum Sizes {
    /// Each size as often.
    Even,
    /// As in a compiled program.
    Compiled,
}

impl Sizes {
    /// How many blocks the function with this number has.
    pub(crate) fn of(self, function: u32) -> u32 {
        let number = (mixed(u64::from(function)) % (1 << 32)) as u32;
        match self {
            Sizes::Even => 5 + number % 196,
            Sizes::Compiled => compiled_size(number % 10, number / 10),
        }
    }
}

/// A size from one tenth of a program's functions, ordered by their sizes. The borders of the
/// tenths are those of the 4,250 functions of CPython 3.11 that have 5 to 200 blocks (gcc 12,
/// x86-64), counted by their jumps.
fn compiled_size(tenth: u32, number: u32) -> u32 {
    match tenth {
        0 => 5,
        1 => 6 + number % 2,
        2 => 8 + number % 2,
        3 => 10 + number % 3,
        4 => 13 + number % 3,
        5 => 16 + number % 4,
        6 => 20 + number % 7,
        7 => 27 + number % 9,
        8 => 36 + number % 22,
        _ => 58 + number % 143,
    }
}

/// The edges from one block on.
fn fork(edges: &mut Vec<Edge>, count: u32, from: u32) -> Result<(), NoMemory>
    requires some { 0 < count }
    requires few { from < 65536 }
    requires joined { AreEdges count edges.old.items }
    ensures joined { OnOk result (AreEdges count edges.new.items) }
    ensures few { OnOk result (length edges.new.items ≤ length edges.old.items + 2) }
{
    join(edges, count, from, from + 1)?;
    if from % 2 == 1 {
        return Ok(());
    }
    join(edges, count, from, beyond(from, count))?;
    Ok(())
}

/// Where a block leads to beside the next one.
fn beyond(from: u32, count: u32) -> u32
    requires some { 0 < count }
    requires few { from < 65536 }
    ensures { result < count }
{
    let ahead = mixed(u64::from(from)) % 62;
    (from + 2 + ahead as u32).min(count - 1)
}

/// How often each block runs when half of what passes takes the way beyond.
fn flow_of(alloc: Global, count: u32) -> Result<Vec<u64>, NoMemory>
    requires some { 2 ≤ count }
    requires few { count ≤ 65536 }
    ensures { IfOk result (λ flow. length flow.items ≡ count) }
{
    let mut flow = vec![in alloc; 0u64; count as usize]?;
    flow[0] = 1 << 30;
    for from in 0..count - 1 {
        let all = flow[from as usize];
        let half = if from % 2 == 0 { all / 2 } else { 0 };
        let to = beyond(from, count) as usize;
        flow[to] = flow[to].saturating_add(half);
        let next = from as usize + 1;
        flow[next] = flow[next].saturating_add(all - half);
    }
    Ok(flow)
}

/// Weights that are off by some from how often blocks run.
fn weights_by(alloc: Global, flow: &[u64]) -> Result<Vec<Weight>, NoMemory>
    ensures { IfOk result (λ weights. AreWeights (length flow.now) weights.items) }
{
    let mut weights = Vec::new(alloc);
    for (block, exact) in flow.iter().enumerate() {
        weights.push(Weight::Known(off(*exact, block as u64)))?;
    }
    Ok(weights)
}

/// The edges of one choice, and the one to the next.
fn choose(edges: &mut Vec<Edge>, count: u32, first: u32) -> Result<(), NoMemory>
    requires some { 0 < count }
    requires few { first + 4 < 2 ^ 32 }
    requires joined { AreEdges count edges.old.items }
    ensures joined { OnOk result (AreEdges count edges.new.items) }
    ensures few { OnOk result (length edges.new.items ≤ length edges.old.items + 5) }
{
    join(edges, count, first, first + 1)?;
    join(edges, count, first, first + 2)?;
    join(edges, count, first + 1, first + 3)?;
    join(edges, count, first + 2, first + 3)?;
    join(edges, count, first + 3, first + 4)?;
    Ok(())
}

/// Adds an edge between two of so many blocks.
fn join(edges: &mut Vec<Edge>, count: u32, from: u32, to: u32) -> Result<(), NoMemory>
    requires some { 0 < count }
    requires joined { AreEdges count edges.old.items }
    ensures joined { OnOk result (AreEdges count edges.new.items) }
    ensures few { OnOk result (length edges.new.items ≤ length edges.old.items + 1) }
{
    edges.push(Edge {
        from: from % count,
        to: to % count,
        bound: FREE,
    })?;
    Ok(())
}

/// So many blocks without bounds.
fn blocks_of(alloc: Global, count: u32, exit: u32) -> Result<Vec<Block>, NoMemory>
    ensures each { IfOk result (λ blocks. length blocks.items ≡ count) }
    ensures bounded { IfOk result (λ blocks. All (λ block. IsSoundBound block.bound) blocks.items) }
{
    let mut blocks = Vec::new(alloc);
    for block in 0..count {
        blocks.push(Block {
            lo: 1,
            hi: 2,
            exit: block == exit,
            bound: FREE,
        })?;
    }
    Ok(blocks)
}

/// Which blocks of a made-up function were sampled.
#[derive(Clone, Copy)]
enum Sampled {
    Nothing,
    First,
    All,
}

/// The weights of so many blocks or edges.
fn weights_of(alloc: Global, count: usize, sampled: Sampled) -> Result<Vec<Weight>, NoMemory>
    ensures { IfOk result (λ weights. AreWeights count weights.items) }
{
    let mut weights = Vec::new(alloc);
    for block in 0..count {
        weights.push(weight_of(block as u64, sampled))?;
    }
    Ok(weights)
}

/// The weight of a block.
fn weight_of(block: u64, sampled: Sampled) -> Weight
    ensures { model.weight_of result < 2 ^ 44 }
{
    match sampled {
        Sampled::First if block == 0 => Weight::Known(1),
        Sampled::All => Weight::Known(off_by_some(block)),
        _ => Weight::Unknown,
    }
}

/// About 100,000 where a choice begins and ends, and a share of it on either way.
fn off_by_some(block: u64) -> u64
    ensures { result < 2 ^ 44 }
{
    let share = mixed(block / 4) % 100_000;
    let exact = match block % 4 {
        1 => share,
        2 => 100_000 - share,
        _ => 100_000,
    };
    off(exact, block)
}

/// A number off by up to 3 per cent.
fn off(exact: u64, block: u64) -> u64
    ensures { result < 2 ^ 44 }
{
    let exact = exact.min(1 << 42);
    match mixed(block % 65_536 + 7) % 5 {
        0 => exact - exact / 33,
        1 => exact - exact / 50,
        2 => exact,
        3 => exact + exact / 50,
        _ => exact + exact / 33,
    }
}

/// A number that looks like any other.
fn mixed(number: u64) -> u64 {
    (number % 1_000_003 + 1) * 2_654_435_761 % 4_294_967_291
}

/// The network of these blocks and edges.
fn made(
    alloc: Global,
    blocks: Vec<Block>,
    edges: Vec<Edge>,
    weights: &[Weight],
    edge_weights: &[Weight],
) -> Result<Net, NoMemory>
    requires some { 0 < length blocks.items }
    requires few { length blocks.items ≤ 65536 }
    requires few_edges { length edges.items ≤ 262144 }
    requires bounded { All (λ block. IsSoundBound block.bound) blocks.items }
    requires joined { AreEdges (length blocks.items) edges.items }
    requires weighed { AreWeights (length blocks.items) weights.now }
    requires edges_weighed { AreWeights (length edges.items) edge_weights.now }
{
    let fun = Fun {
        name: b"made",
        blocks: Items::new(blocks),
        edges: Items::new(edges),
    };
    let net = net_of(alloc, &fun, weights, edge_weights)?;
    Ok(net)
}
