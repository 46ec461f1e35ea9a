// The functions whose places a profile and repairs need.
ghost use Rattle.std.specs.List.{All};
ghost use Rattle.span_cover.specs.Asked.{Keeps};
ghost use Rattle.span_cover.specs.Stretches.{function_at};
ghost use Rattle.profile_maker.specs.Asked.{AsksBlocks, AsksEnds};

use binary_places::{Asked, Functions};
use cfg_text::Fun;
use sample_model::Pair;

/// Asks for the places of both ends of these branches and of these ranges: for those of all
/// addresses that ran, since a range that ran lies in the function of its first address.
pub(crate) fn ask_samples(
    functions: &Functions,
    branches: &[Pair],
    ranges: &[Pair],
    asked: &mut Asked,
)
    ensures branches { All (AsksEnds (function_at functions.now.stretches) asked.new)
        branches.now }
    ensures ranges { All (AsksEnds (function_at functions.now.stretches) asked.new) ranges.now }
    ensures kept { Keeps asked.old asked.new }
{
    ask_rows(functions, branches, asked);
    ask_rows(functions, ranges, asked);
}

/// Asks for the places of both ends of these rows.
fn ask_rows(functions: &Functions, rows: &[Pair], asked: &mut Asked)
    ensures asked { All (AsksEnds (function_at functions.now.stretches) asked.new) rows.now }
    ensures kept { Keeps asked.old asked.new }
{
    for row in rows {
        asked.ask(functions, row.from);
        asked.ask(functions, row.to);
    }
}

/// Asks for the places of all addresses in the blocks of these functions.
pub fn ask_blocks(functions: &Functions, funs: &[Fun<'_>], asked: &mut Asked)
    ensures asked { All (λ fun. AsksBlocks (function_at functions.now.stretches) asked.new
        fun.blocks) funs.now }
    ensures kept { Keeps asked.old asked.new }
{
    for fun in funs {
        ask_fun(functions, fun, asked);
    }
}

/// Asks for those in the blocks of one.
fn ask_fun(functions: &Functions, fun: &Fun<'_>, asked: &mut Asked)
    ensures asked { AsksBlocks (function_at functions.now.stretches) asked.new fun.now.blocks }
    ensures kept { Keeps asked.old asked.new }
{
    for block in fun.blocks.as_slice() {
        asked.ask_between(functions, block.lo, block.hi);
    }
}
