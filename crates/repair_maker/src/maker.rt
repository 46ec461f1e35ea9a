// Repairs, one function behind the other.
ghost use Rattle.std.specs.Prelude.{◌≡◌, ◌++◌, ◌+◌, ◌<◌, ◌≤◌, ◌^◌, List, ℕ, IfOk, OnErr, OnOk, length, map};
ghost use Rattle.std.specs.List.{All};
ghost use Rattle.block_model.specs.Limits.{bound_bits};
ghost use Rattle.flow_model.specs.Sound.{IsSound};
ghost use Rattle.block_weights.specs.Counts.{count_in};
ghost use Rattle.cfg_text.specs.Fun.{function_of};
ghost use Rattle.key_types.specs.Segments.{AreSegments, key_told};
ghost use Rattle.repair_model.specs.Made.{AreRepairsOf, IsRepairOf};
ghost use Rattle.output_model.specs.Scaled.{AreAllAugmentations, AreAugmentationsOf};
ghost use Rattle.repair_maker.specs.Told.{edges_told};

use crate::repaired::repair;
use crate::solver::Solver;
use block_weights::{EdgeSamples, SegmentCounts};
use cfg_text::Fun;
use key_types::Seg;
use output_model::RepairOptions;
use refusal::NoMemory;
use std::alloc::Global;

/// Appends the repair of each of these functions, in order: counts of least cost with prices that
/// fit them, or a cut, exactly where no counts conserve within bounds.
///
/// `segments` tell the key of each address, and `counts` has the count of each key at its number,
/// from which blocks have their weights. `edges` are what was sampled of edges, for `options` that
/// ask for their weights; without it these are unknown and are not told. With `options.scaled` each
/// network whose counts to start from are small enough is solved within a bound on augmentations,
/// and the answer is how many these were together, which tells nothing without it. There are at
/// most 2^29 functions.
///
/// # Errors
/// `NoMemory`, and the repairs of the functions in front were appended.
pub fn write(
    alloc: Global,
    funs: &[Fun<'_>],
    segments: &[Seg],
    counts: &[u64],
    edges: Option<&EdgeSamples>,
    options: RepairOptions,
    out: &mut Vec<u8>,
) -> Result<u64, NoMemory>
    requires segments { AreSegments segments.now }
    requires small { All (λ count. count < 2 ^ bound_bits) counts.now }
    requires sound { All (λ fun. IsSound fun.blocks fun.edges) funs.now }
    requires few { length funs.now ≤ 2 ^ 29 }
    ensures kept { (text : List ℕ) × (out.new.items ≡ out.old.items ++ text) }
    ensures written { OnOk result ((text : List ℕ) × (out.new.items ≡ out.old.items ++ text)
        × AreRepairsOf (key_told segments.now) (count_in counts.now) (edges_told edges.entry)
        (map function_of funs.now) text) }
    ensures counted { IfOk result (λ augmentations. AreAllAugmentations
        (key_told segments.now) (count_in counts.now) (edges_told edges.entry)
        (map function_of funs.now) augmentations) }
{
    let counted = SegmentCounts::new(alloc, segments, counts)?;
    write_all(alloc, funs, &counted, edges, options, out)
}

/// Appends the repair of each of these functions, in order.
fn write_all(
    alloc: Global,
    funs: &[Fun<'_>],
    counted: &SegmentCounts<'_>,
    edges: Option<&EdgeSamples>,
    options: RepairOptions,
    out: &mut Vec<u8>,
) -> Result<u64, NoMemory>
    requires small { All (λ count. count < 2 ^ bound_bits) counted.now.counts }
    requires sound { All (λ fun. IsSound fun.blocks fun.edges) funs.now }
    requires few { length funs.now ≤ 2 ^ 29 }
    ensures kept { (text : List ℕ) × (out.new.items ≡ out.old.items ++ text) }
    ensures written { OnOk result ((text : List ℕ) × (out.new.items ≡ out.old.items ++ text)
        × AreRepairsOf (key_told counted.now.segments) (count_in counted.now.counts)
        (edges_told edges.entry) (map function_of funs.now) text) }
    ensures counted { IfOk result (λ augmentations. AreAllAugmentations
        (key_told counted.now.segments) (count_in counted.now.counts) (edges_told edges.entry)
        (map function_of funs.now) augmentations) }
{
    let mut solver = Solver::new(options.scaled);
    for fun in funs {
        write_one(alloc, fun, counted, edges, &mut solver, out)?;
    }
    Ok(solver.augmentations())
}

/// Appends the repair of a function.
fn write_one(
    alloc: Global,
    fun: &Fun<'_>,
    counted: &SegmentCounts<'_>,
    edges: Option<&EdgeSamples>,
    solver: &mut Solver,
    out: &mut Vec<u8>,
) -> Result<(), NoMemory>
    requires small { All (λ count. count < 2 ^ bound_bits) counted.now.counts }
    requires sound { IsSound fun.now.blocks fun.now.edges }
    requires room { solver.old ≤ 2 ^ 63 }
    ensures unchanged { OnErr result (out.new.items ≡ out.old.items) }
    ensures written { OnOk result ((text : List ℕ) × (out.new.items ≡ out.old.items ++ text)
        × IsRepairOf (key_told counted.now.segments) (count_in counted.now.counts)
        (edges_told edges.entry) (function_of fun.now) text) }
    ensures counted { OnOk result ((count : ℕ) × (solver.new ≡ solver.old + count)
        × AreAugmentationsOf (key_told counted.now.segments) (count_in counted.now.counts)
        (edges_told edges.entry) (function_of fun.now) count) }
    ensures few { OnOk result (solver.new ≤ solver.old + 2 ^ 29) }
{
    let made = repair(alloc, fun, counted, edges, solver)?;
    match edges {
        Some(_) => repair_text::write(
            fun,
            &made.net,
            &made.weights,
            Some(&made.edge_weights),
            &made.solved,
            out,
        ),
        None => repair_text::write(fun, &made.net, &made.weights, None, &made.solved, out),
    }
}
