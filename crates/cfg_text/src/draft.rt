// A function that is being read, line by line.
ghost use Rattle.std.specs.Prelude.{◌≡◌, ◌<◌, ◌==◌, length, None, Some, if◌then◌else◌};
ghost use Rattle.std.specs.List.{list_any};
ghost use Rattle.block_model.specs.Function.{joins, named, overlap, with_block, with_edge};
ghost use Rattle.block_model.specs.Judging as judging;
ghost use Rattle.cfg_text.specs.Fun.{function_of};
ghost use Rattle.refusal.specs.Place.{JudgesItem};
ghost use Rattle.refusal.specs.declared.kind.Kind.TheVariants.{BadBound};

use crate::fun::Fun;
use crate::rising::{all_end_by, meet};
use crate::taken::Taken;
use crate::ways::{all_go_by, has_way, way};
use block_model::{Block, Bound, Edge};
use item_lists::Items;
use refusal::{ItemStop, Kind};
use std::alloc::Global;
use std::collections::BTreeSet;
use std::marker::Model;

/// The most blocks of a function.
const MAX_BLOCKS: usize = 65_536;

/// The most edges of a function.
const MAX_EDGES: usize = 262_144;

/// A function so far. Beside its blocks and edges it keeps, in order, the addresses that blocks
/// hold and the ways that edges go, so that a line is judged without looking through them. Most
/// texts list both in order: of what stands so from the front on, only the number is kept.
#[derive(Debug, Drop)]
pub(crate) struct Draft<'a> {
    name: &'a [u8],
    blocks: Vec<Block>,
    edges: Vec<Edge>,
    /// So many blocks at the front stand behind one another.
    rising: usize,
    /// The addresses that the other blocks hold.
    taken: Taken,
    /// So many edges at the front stand by their ways.
    sorted: usize,
    /// The ways that the other edges go.
    ways: BTreeSet<u64>,
}

impl<'a> Model for Draft<'a> {
    ghost use Rattle.block_model.specs.Function.{Function};
    ghost use Rattle.cfg_text.specs.Draft.{IsDraft};

    ghost Value = { Function };

    ghost view = { λ d. record {
      name = d.name.now;
      blocks = d.blocks.items;
      edges = d.edges.items;
    } };

    ghost invariant = { λ d.
        IsDraft d.blocks.items d.edges.items d.rising d.taken d.sorted d.ways };
}

impl<'a> Draft<'a> {
    /// A function of this name, without any block yet.
    pub(crate) fn new(alloc: Global, name: &'a [u8]) -> Draft<'a>
        ensures { result ≡ named name.now }
    {
        Draft {
            name,
            blocks: Vec::new(alloc),
            edges: Vec::new(alloc),
            rising: 0,
            taken: Taken::new(alloc),
            sorted: 0,
            ways: BTreeSet::new(alloc),
        }
    }

    /// Adds the next block, of which the line says that it has this number.
    pub(crate) fn add_block(&mut self, number: u64, block: Block) -> Result<(), ItemStop>
        ensures { JudgesItem (judging.cause_of_block self.old number block) result
            (self.new ≡ with_block self.old block) }
    {
        if let Some(kind) = self.cause_of_block(number, &block) {
            return Err(ItemStop::Refused(kind));
        }
        self.blocks.try_reserve(1)?;
        if all_end_by(&self.blocks, self.rising, block.lo) {
            self.rising += 1;
            self.blocks.push_reserved(block);
            return Ok(());
        }
        self.taken.add(block.lo, block.hi)?;
        self.blocks.push_reserved(block);
        Ok(())
    }

    /// Why a block is refused here.
    #[tactic(auto, unfolding(block_model::specs::Judging::cause_of_block))]
    fn cause_of_block(&self, number: u64, block: &Block) -> Option<Kind>
        ensures { result ≡ judging.cause_of_block self.now number block.now }
    {
        if !self.edges.is_empty() {
            Some(Kind::BadLine)
        } else if self.blocks.len() >= MAX_BLOCKS {
            Some(Kind::TooManyBlocks)
        } else if number != self.blocks.len() as u64 {
            Some(Kind::BlockOrder)
        } else if block.hi <= block.lo {
            Some(Kind::BlockEmpty)
        } else if self.overlaps(block) {
            Some(Kind::BlockOverlap)
        } else {
            cause_of_bound(&block.bound)
        }
    }

    /// Whether a block has an address in common with another one.
    fn overlaps(&self, block: &Block) -> bool
        ensures { result ≡ list_any (overlap block.now) self.now.blocks }
    {
        if meet(&self.blocks[..self.rising], block.lo, block.hi) {
            return true;
        }
        self.taken.meet(block.lo, block.hi)
    }

    /// Adds an edge between the blocks that the line says.
    pub(crate) fn add_edge(&mut self, from: u64, to: u64, bound: Bound) -> Result<(), ItemStop>
        ensures { JudgesItem (judging.cause_of_edge self.old from to bound) result
            (self.new ≡ with_edge self.old (record { from = from; to = to; bound = bound })) }
    {
        if let Some(kind) = self.cause_of_edge(from, to, &bound) {
            return Err(ItemStop::Refused(kind));
        }
        self.edges.try_reserve(1)?;
        let way = way(from, to);
        let edge = Edge {
            from: from as u32,
            to: to as u32,
            bound,
        };
        if all_go_by(&self.edges, self.sorted, way) {
            self.sorted += 1;
            self.edges.push_reserved(edge);
            return Ok(());
        }
        self.ways.insert(way)?;
        self.edges.push_reserved(edge);
        Ok(())
    }

    /// Why an edge is refused here.
    #[tactic(auto, unfolding(block_model::specs::Judging::cause_of_edge))]
    fn cause_of_edge(&self, from: u64, to: u64, bound: &Bound) -> Option<Kind>
        ensures { result ≡ judging.cause_of_edge self.now from to bound.now }
    {
        let blocks = self.blocks.len() as u64;
        if self.edges.len() >= MAX_EDGES {
            Some(Kind::TooManyEdges)
        } else if from.max(to) >= blocks {
            Some(Kind::EdgeEnd)
        } else if self.joins(from, to) {
            Some(Kind::EdgeTwice)
        } else {
            cause_of_bound(bound)
        }
    }

    /// Whether an edge joins these blocks.
    fn joins(&self, from: u64, to: u64) -> bool
        requires from_fits { from < 65536 }
        requires to_fits { to < 65536 }
        ensures { result ≡ list_any (joins from to) self.now.edges }
    {
        let way = way(from, to);
        if has_way(&self.edges[..self.sorted], way) {
            return true;
        }
        self.ways.contains(&way)
    }

    /// Whether there is no block yet.
    pub(crate) fn is_empty(&self) -> bool
        ensures { result ≡ (length self.now.blocks == 0) }
    {
        self.blocks.is_empty()
    }

    /// The function as it stands, in no more memory than it needs: a large program has many.
    pub(crate) fn close(self) -> Fun<'a>
        ensures { function_of result ≡ self.entry }
    {
        let Draft {
            name,
            mut blocks,
            mut edges,
            ..
        } = self;
        blocks.shrink_to_fit();
        edges.shrink_to_fit();
        Fun {
            name,
            blocks: Items::new(blocks),
            edges: Items::new(edges),
        }
    }
}

/// A bound is refused where its least count is above its greatest.
fn cause_of_bound(bound: &Bound) -> Option<Kind>
    ensures { result ≡ (if judging.is_bad_bound bound.now then Some BadBound else None) }
{
    match bound.upper {
        Some(upper) if upper < bound.lower => Some(Kind::BadBound),
        _ => None,
    }
}
