// A repair that is being read.
ghost use Rattle.std.specs.Prelude.{◌≡◌, [], false, length, Some, IfOk, OnOk};
ghost use Rattle.cfg_text.specs.Fun.{function_of};
ghost use Rattle.repair_model.specs.Judging as judging;
ghost use Rattle.repair_model.specs.Repair as model;
ghost use Rattle.repair_model.specs.Text.{begun, is_end, told_behind};
ghost use Rattle.block_model.specs.Function.{joins as edge_joins};
ghost use Rattle.repair_text.specs.Repair.{repair_of};
ghost use Rattle.repair_text.specs.Told.{counts_told, sides_told, told_of, with_sums};
ghost use Rattle.repair_text.specs.Said.{meaning_of};

use crate::repair::Repair;
use crate::said::RepairLine;
use cfg_text::{Edge, Fun, Weight};
use flow_network::{Flow, Nodes, Prices, Solved};
use item_lists::Items;
use refusal::{Kind, NoMemory};
use std::alloc::Global;

/// What was told of a function so far.
#[derive(Debug, Drop)]
pub(crate) enum Told {
    /// Counts with prices.
    OpenCounts(OpenCounts),
    /// A cut.
    Sides(Sides),
}

/// Counts with prices.
#[derive(Debug, Drop)]
pub(crate) struct OpenCounts {
    weights: Vec<Weight>,
    edge_weights: Vec<Weight>,
    blocks: Vec<u64>,
    edges: Vec<u64>,
    ins: Vec<i64>,
    outs: Vec<i64>,
}

/// The sides of a cut.
#[derive(Debug, Drop)]
pub(crate) struct Sides {
    weights: Vec<Weight>,
    root: bool,
    ins: Vec<bool>,
    outs: Vec<bool>,
}

impl Told {
    /// Counts of which nothing was told.
    pub(crate) fn counts(alloc: Global) -> Told
        ensures { told_of result ≡ begun (model.flow (record { blocks = []; edges = [] }) [] []) }
    {
        Told::OpenCounts(OpenCounts {
            weights: Vec::new(alloc),
            edge_weights: Vec::new(alloc),
            blocks: Vec::new(alloc),
            edges: Vec::new(alloc),
            ins: Vec::new(alloc),
            outs: Vec::new(alloc),
        })
    }

    /// A cut of which only the root was told.
    pub(crate) fn sides(alloc: Global, root: bool) -> Told
        ensures { told_of result ≡ begun (model.cut root [] []) }
    {
        Told::Sides(Sides {
            weights: Vec::new(alloc),
            root,
            ins: Vec::new(alloc),
            outs: Vec::new(alloc),
        })
    }

    /// Why a line is refused behind what was told of a function.
    #[tactic(auto, unfolding(repair_model::specs::Judging::cause_inside))]
    pub(crate) fn cause_of(&self, fun: &Fun<'_>, said: &RepairLine<'_>) -> Option<Kind>
        ensures { result ≡ judging.cause_inside (function_of fun.now) (told_of self.now)
            (Some (meaning_of said.now)) }
    {
        match *said {
            RepairLine::Count(number, _, _, _, _) => self.cause_of_block(
                self.has_counts(),
                fun,
                number,
            ),
            RepairLine::Sides(number, _, _, _) => self.cause_of_block(
                !self.has_counts(),
                fun,
                number,
            ),
            RepairLine::Edge(from, to, _, _) => self.cause_of_edge(fun, from, to),
            RepairLine::EndOfFlow(_) => self.cause_of_end(self.has_counts(), fun),
            RepairLine::EndOfCut(_, _) => self.cause_of_end(!self.has_counts(), fun),
            RepairLine::Flow(_) => Some(Kind::BadLine),
            RepairLine::Cut(_, _) => Some(Kind::BadLine),
        }
    }

    /// Why the line of a block is refused, by whether it has the form of the repair.
    #[tactic(auto, unfolding(repair_model::specs::Judging::cause_of_block))]
    fn cause_of_block(&self, has_form: bool, fun: &Fun<'_>, number: u64) -> Option<Kind>
        ensures { result
            ≡ judging.cause_of_block has_form (function_of fun.now) (told_of self.now) number }
    {
        if !has_form {
            Some(Kind::BadLine)
        } else if !self.is_block_due(fun) {
            Some(Kind::Extra)
        } else if number != self.blocks() as u64 {
            Some(Kind::WrongBlock)
        } else {
            None
        }
    }

    /// Why the line of an edge is refused.
    #[tactic(auto, unfolding(repair_model::specs::Judging::cause_of_edge))]
    fn cause_of_edge(&self, fun: &Fun<'_>, from: u64, to: u64) -> Option<Kind>
        ensures { result
            ≡ judging.cause_of_edge (function_of fun.now) (told_of self.now) from to }
    {
        if self.is_block_due(fun) {
            Some(Kind::Missing)
        } else if !self.is_edge_due(fun) {
            Some(Kind::Extra)
        } else if !self.is_next_edge(fun, from, to) {
            Some(Kind::WrongEdge)
        } else {
            None
        }
    }

    /// Why the last line is refused, by whether it has the form of the repair.
    #[tactic(auto, unfolding(repair_model::specs::Judging::cause_of_end))]
    fn cause_of_end(&self, has_form: bool, fun: &Fun<'_>) -> Option<Kind>
        ensures { result ≡ judging.cause_of_end has_form (function_of fun.now) (told_of self.now) }
    {
        if !has_form {
            Some(Kind::BadLine)
        } else if self.is_block_due(fun) || self.is_edge_due(fun) {
            Some(Kind::Missing)
        } else {
            None
        }
    }

    /// Whether counts are told, and not a cut.
    fn has_counts(&self) -> bool
        ensures { result ≡ model.has_counts (told_of self.now).solution }
    {
        match self {
            Told::OpenCounts(_) => true,
            Told::Sides(_) => false,
        }
    }

    /// How many blocks were told.
    fn blocks(&self) -> usize
        ensures { result ≡ length (told_of self.now).weights }
    {
        match self {
            Told::OpenCounts(counts) => counts.weights.len(),
            Told::Sides(sides) => sides.weights.len(),
        }
    }

    /// Whether blocks are still to be told.
    fn is_block_due(&self, fun: &Fun<'_>) -> bool
        ensures { result ≡ judging.is_block_due (function_of fun.now) (told_of self.now) }
    {
        self.blocks() < fun.blocks.as_slice().len()
    }

    /// Whether edges are still to be told.
    fn is_edge_due(&self, fun: &Fun<'_>) -> bool
        ensures { result ≡ judging.is_edge_due (function_of fun.now) (told_of self.now) }
    {
        match self {
            Told::OpenCounts(counts) => counts.edge_weights.len() < fun.edges.as_slice().len(),
            Told::Sides(_) => false,
        }
    }

    /// Whether the next edge joins these blocks.
    fn is_next_edge(&self, fun: &Fun<'_>, from: u64, to: u64) -> bool
        ensures { result
            ≡ judging.is_next_edge (function_of fun.now) (told_of self.now) from to }
    {
        let edges = fun.edges.as_slice();
        let next = match self {
            Told::OpenCounts(counts) => edges.get(counts.edge_weights.len()),
            Told::Sides(_) => edges.first(),
        };
        match next {
            Some(edge) => joins(edge, from, to),
            None => false,
        }
    }

    /// Adds what a line tells of a block or an edge.
    pub(crate) fn add(&mut self, said: &RepairLine<'_>) -> Result<(), NoMemory>
        requires { is_end (meaning_of said.now) ≡ false }
        ensures { OnOk result
            (told_of self.new ≡ told_behind (told_of self.old) (meaning_of said.now)) }
    {
        match self {
            Told::OpenCounts(counts) => counts.add(said),
            Told::Sides(sides) => sides.add(said),
        }
    }

    /// The same with room for all that is told of the first of these functions, if there is one.
    pub(crate) fn with_room(self, left: &[Fun<'_>]) -> Result<Told, NoMemory>
        ensures { IfOk result (λ told. told_of told ≡ told_of self) }
    {
        let Some(fun) = left.first() else {
            return Ok(self);
        };
        let blocks = fun.blocks.as_slice().len();
        match self {
            Told::OpenCounts(mut counts) => {
                counts.reserve(blocks, fun.edges.as_slice().len())?;
                Ok(Told::OpenCounts(counts))
            }
            Told::Sides(mut sides) => {
                sides.reserve(blocks)?;
                Ok(Told::Sides(sides))
            }
        }
    }

    /// The repair whose first line has this number and whose last line has these sums.
    pub(crate) fn close(self, line: u64, first: u128, second: u128) -> Repair
        ensures told { repair_of result ≡ with_sums (told_of self) first second }
        ensures line { result.line ≡ line }
    {
        match self {
            Told::OpenCounts(counts) => Repair {
                line,
                weights: Items::new(counts.weights),
                edge_weights: Items::new(counts.edge_weights),
                solved: Solved::Flow(
                    Flow {
                        blocks: Items::new(counts.blocks),
                        edges: Items::new(counts.edges),
                    },
                    Prices {
                        ins: Items::new(counts.ins),
                        outs: Items::new(counts.outs),
                    },
                ),
                first,
                second,
            },
            Told::Sides(sides) => {
                let alloc = *sides.weights.allocator();
                Repair {
                    line,
                    weights: Items::new(sides.weights),
                    edge_weights: Items::new(Vec::new(alloc)),
                    solved: Solved::Cut(Nodes {
                        root: sides.root,
                        ins: Items::new(sides.ins),
                        outs: Items::new(sides.outs),
                    }),
                    first,
                    second,
                }
            }
        }
    }
}

impl OpenCounts {
    /// Takes room for so many blocks and edges.
    fn reserve(&mut self, blocks: usize, edges: usize) -> Result<(), NoMemory>
        ensures { counts_told self.new ≡ counts_told self.old }
    {
        self.weights.reserve(blocks)?;
        self.blocks.reserve(blocks)?;
        self.ins.reserve(blocks)?;
        self.outs.reserve(blocks)?;
        self.edge_weights.reserve(edges)?;
        self.edges.reserve(edges)?;
        Ok(())
    }

    /// Adds what a line tells of a block or an edge.
    fn add(&mut self, said: &RepairLine<'_>) -> Result<(), NoMemory>
        requires { is_end (meaning_of said.now) ≡ false }
        ensures { OnOk result
            (counts_told self.new ≡ told_behind (counts_told self.old) (meaning_of said.now)) }
    {
        match *said {
            RepairLine::Count(_, weight, count, enter, leave) => {
                self.weights.push(weight)?;
                self.blocks.push(count)?;
                self.ins.push(enter)?;
                self.outs.push(leave)?;
            }
            RepairLine::Edge(_, _, weight, count) => {
                self.edge_weights.push(weight.unwrap_or(Weight::Unknown))?;
                self.edges.push(count)?;
            }
            _ => {}
        }
        Ok(())
    }
}

impl Sides {
    /// Takes room for so many blocks.
    fn reserve(&mut self, blocks: usize) -> Result<(), NoMemory>
        ensures { sides_told self.new ≡ sides_told self.old }
    {
        self.weights.reserve(blocks)?;
        self.ins.reserve(blocks)?;
        self.outs.reserve(blocks)?;
        Ok(())
    }

    /// Adds what a line tells of a block.
    fn add(&mut self, said: &RepairLine<'_>) -> Result<(), NoMemory>
        requires { is_end (meaning_of said.now) ≡ false }
        ensures { OnOk result
            (sides_told self.new ≡ told_behind (sides_told self.old) (meaning_of said.now)) }
    {
        if let RepairLine::Sides(_, weight, enter, leave) = *said {
            self.weights.push(weight)?;
            self.ins.push(enter)?;
            self.outs.push(leave)?;
        }
        Ok(())
    }
}

/// Whether an edge joins these blocks.
fn joins(edge: &Edge, from: u64, to: u64) -> bool
    ensures { result ≡ edge_joins from to edge.now }
{
    u64::from(edge.from) == from && u64::from(edge.to) == to
}
