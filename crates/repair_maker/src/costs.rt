// What repairs cost, with nothing written of them.
ghost use Rattle.std.specs.Prelude.{◌≡◌, ◌+◌, ◌<◌, ◌^◌, List, Option, ℕ, IfOk, cond, is_none, map};
ghost use Rattle.std.specs.List.{All, AllZip};
ghost use Rattle.std.specs.Option.{unwrap_or};
ghost use Rattle.block_model.specs.Limits.{bound_bits};
ghost use Rattle.flow_model.specs.Sound.{IsSound};
ghost use Rattle.block_weights.specs.Counts.{count_in};
ghost use Rattle.cfg_text.specs.Fun.{function_of};
ghost use Rattle.key_types.specs.Segments.{AreSegments, key_told};
ghost use Rattle.output_model.specs.Summary.{IsRepairCost, costs_in, cuts_in};

use crate::repaired::repair;
use crate::solver::Solver;
use block_weights::SegmentCounts;
use cfg_text::Fun;
use flow_network::{Solved, cost};
use key_types::Seg;
use refusal::NoMemory;
use std::alloc::Global;

/// What the repairs of some functions come to.
#[derive(Clone, Copy, Debug)]
pub struct Costs {
    /// What all of them that are counts cost together.
    pub cost: u128,
    /// How many of them are cuts.
    pub cuts: usize,
}

/// What the repairs of these functions come to, of blocks whose weights are those of `write`, and
/// of edges without. What they cost is determined, whichever least counts are found.
///
/// # Errors
/// `NoMemory`, also where the costs would not fit 128 bits.
pub fn costs_of(
    alloc: Global,
    funs: &[Fun<'_>],
    segments: &[Seg],
    counts: &[u64],
) -> Result<Costs, NoMemory>
    requires segments { AreSegments segments.now }
    requires small { All (λ count. count < 2 ^ bound_bits) counts.now }
    requires sound { All (λ fun. IsSound fun.blocks fun.edges) funs.now }
    ensures { IfOk result (λ made. (costs : List (Option ℕ))
        × AllZip (IsRepairCost (key_told segments.now) (count_in counts.now))
        (map function_of funs.now) costs
        × (made.cost ≡ costs_in costs) × (made.cuts ≡ cuts_in costs)) }
{
    let counted = SegmentCounts::new(alloc, segments, counts)?;
    costs_by(alloc, funs, &counted)
}

/// What the repairs of these functions come to.
fn costs_by(alloc: Global, funs: &[Fun<'_>], counted: &SegmentCounts<'_>) -> Result<Costs, NoMemory>
    requires small { All (λ count. count < 2 ^ bound_bits) counted.now.counts }
    requires sound { All (λ fun. IsSound fun.blocks fun.edges) funs.now }
    ensures { IfOk result (λ made. (costs : List (Option ℕ))
        × AllZip (IsRepairCost (key_told counted.now.segments) (count_in counted.now.counts))
        (map function_of funs.now) costs
        × (made.cost ≡ costs_in costs) × (made.cuts ≡ cuts_in costs)) }
{
    let mut sum = Costs { cost: 0, cuts: 0 };
    for fun in funs {
        sum = with_one(sum, cost_of(alloc, fun, counted)?)?;
    }
    Ok(sum)
}

/// What the repair of a function costs; none where it is a cut.
fn cost_of(
    alloc: Global,
    fun: &Fun<'_>,
    counted: &SegmentCounts<'_>,
) -> Result<Option<u128>, NoMemory>
    requires small { All (λ count. count < 2 ^ bound_bits) counted.now.counts }
    requires sound { IsSound fun.now.blocks fun.now.edges }
    ensures { IfOk result (λ cost. IsRepairCost (key_told counted.now.segments)
        (count_in counted.now.counts) (function_of fun.now) cost) }
{
    let mut solver = Solver::new(false);
    let made = repair(alloc, fun, counted, None, &mut solver)?;
    match &made.solved {
        Solved::Flow(flow, _) => Ok(Some(cost(&made.net, flow))),
        Solved::Cut(_) => Ok(None),
    }
}

/// What repairs come to with one function more, of this cost, or a cut where there is none.
fn with_one(sum: Costs, cost: Option<u128>) -> Result<Costs, NoMemory>
    requires { sum.cuts + 1 < 2 ^ 64 }
    ensures { IfOk result (λ made. (made.cost ≡ sum.cost + unwrap_or cost 0)
        × (made.cuts ≡ sum.cuts + cond (is_none cost) 1 0)) }
{
    match cost {
        Some(cost) => match sum.cost.checked_add(cost) {
            Some(cost) => Ok(Costs { cost, ..sum }),
            None => Err(NoMemory),
        },
        None => Ok(Costs {
            cuts: sum.cuts + 1,
            ..sum
        }),
    }
}
