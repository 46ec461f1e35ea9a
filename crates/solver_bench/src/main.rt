//! Solves made-up networks, to be timed by `bench/peers`.
//!
//! `solver_bench chain BLOCKS TIMES` solves a chain of so many blocks, of which the first was
//! sampled once; `solver_bench diamonds BLOCKS TIMES` a row of choices of two ways, whose weights
//! are off by a few per cent; `solver_bench jumps BLOCKS TIMES` blocks of which every second one
//! jumps ahead, with such weights; `solver_bench mixed FUNCTIONS TIMES` so many functions of 5 to
//! 200 such blocks, each size as often; `solver_bench compiled FUNCTIONS TIMES` so many of the
//! sizes that compiled functions have. It prints how many times each was solved and what the counts
//! cost. With `scaled` as the last word those whose counts are small enough are solved within a
//! stated number of augmentations, and it prints how many there were, too.
// Why: The solver is timed on functions of the sizes of a compiled program, and on evenly drawn
// sizes as well.
#![tactic(auto)]

mod shapes;
mod solver;

use flow_network::{Net, Solved, cost};
use refusal::NoMemory;
use shapes::Sizes;
use solver::Solver;
use std::alloc::Global;
use std::process::ExitCode;
use std::rt::Env;

/// How many bytes a word may have.
const WORD: usize = 4096;

fn main(rt: HostRuntime) -> ExitCode {
    match measure(&rt) {
        Some(()) => ExitCode::from(0),
        None => ExitCode::from(1),
    }
}

/// Does what the words say, if it can be done.
fn measure<R: AllocGlobal + Env + Print>(rt: &R) -> Option<()> {
    let mut room = [0; WORD];
    let size = word(rt, 2, &mut room)?.parse::<u32>().ok()?;
    let times = word(rt, 3, &mut room)?.parse::<u32>().ok()?;
    let scaled = is_scaled(rt, &mut room)?;
    let mut solver = Solver::new(scaled);
    let costs = costs_of(
        rt.alloc(),
        &mut solver,
        word(rt, 1, &mut room)?,
        size,
        times,
    )?;
    if scaled {
        let steps = solver.augmentations();
        println!(rt; "{times} times solved, in {steps} augmentations, of cost {costs}").ok()
    } else {
        println!(rt; "{times} times solved, of cost {costs}").ok()
    }
}

/// Whether the last word asks for the second solver; `None` for any other word.
fn is_scaled(env: &impl Env, room: &mut [u8; WORD]) -> Option<bool> {
    match word(env, 4, room) {
        None => Some(false),
        Some("scaled") => Some(true),
        Some(_) => None,
    }
}

/// What the least counts of a shape cost, solved so many times; `None` for an unknown shape, and
/// for want of memory.
fn costs_of(
    alloc: Global,
    solver: &mut Solver,
    shape: &str,
    size: u32,
    times: u32,
) -> Option<u128> {
    let net = match shape {
        "chain" => shapes::chain(alloc, size).ok()?,
        "jumps" => shapes::jumps(alloc, size).ok()?,
        "diamonds" => shapes::diamonds(alloc, size).ok()?,
        "mixed" => return solved_each(alloc, solver, size, times, Sizes::Even).ok(),
        "compiled" => return solved_each(alloc, solver, size, times, Sizes::Compiled).ok(),
        _ => return None,
    };
    solved(alloc, solver, &net, times).ok()
}

/// What the least counts of so many functions of 5 to 200 blocks cost together, each solved so many
/// times.
fn solved_each(
    alloc: Global,
    solver: &mut Solver,
    functions: u32,
    times: u32,
    sizes: Sizes,
) -> Result<u128, NoMemory> {
    let mut costs: u128 = 0;
    for number in 0..functions {
        let net = shapes::jumps(alloc, sizes.of(number))?;
        costs = costs.saturating_add(solved(alloc, solver, &net, times)?);
    }
    Ok(costs)
}

/// What the least counts cost, solved so many times; 0 for a cut, and where nothing is solved.
///
/// The cost is told once, of the last answer, so that each time more is the solver's alone.
fn solved(alloc: Global, solver: &mut Solver, net: &Net, times: u32) -> Result<u128, NoMemory> {
    if times == 0 {
        return Ok(0);
    }
    for _ in 1..times {
        solver.solve(alloc, net)?;
    }
    least_cost(alloc, solver, net)
}

/// What the least counts cost; 0 for a cut.
fn least_cost(alloc: Global, solver: &mut Solver, net: &Net) -> Result<u128, NoMemory> {
    match solver.solve(alloc, net)? {
        Solved::Flow(flow, _) => Ok(cost(net, &flow)),
        Solved::Cut(_) => Ok(0),
    }
}

/// The word at a place, as text.
fn word<'a>(env: &impl Env, at: usize, room: &'a mut [u8; WORD]) -> Option<&'a str> {
    let len = env.arg(at, room).ok()?;
    str::from_utf8(&room[..len]).ok()
}
