//! Reads the debugging information of a binary, or makes the map of its places step by step, to be
//! timed by `bench/readers` and `bench/places`.
//!
//! `binary_bench units FILE ROUNDS` reads all units with their entries, `binary_bench lines FILE
//! ROUNDS` all line programs, which have to be of 32-bit DWARF. Each round prints how much there
//! is. `binary_bench places FILE` prints how much each step to the map made, and to standard error
//! the seconds of the processor that it took.
#![tactic(auto)]

mod lines;
mod steps;
mod tables;
mod units;
mod watch;

use crate::watch::Watch;
use elf_sections::Elf;
use std::alloc::Global;
use std::fs;
use std::process::ExitCode;
use std::rt::{Env, Files};
use std::time::CpuClock;

/// How many bytes a word may have.
const WORD: usize = 4096;

/// How much was read: groups, what stands in them, and the bytes of it all.
#[derive(Clone, Copy)]
struct Amount {
    groups: usize,
    items: usize,
    bytes: usize,
}

fn main(rt: HostRuntime) -> ExitCode {
    match measure(&rt) {
        Some(()) => ExitCode::from(0),
        None => ExitCode::from(1),
    }
}

/// Does what the words say, if it can be done.
fn measure<R: AllocGlobal + Env + Files + Print + Eprint + CpuClock>(rt: &R) -> Option<()> {
    let mut room = [0; WORD];
    let file = fs::read(rt, word(rt, 2, &mut room)?).ok()?;
    if word(rt, 1, &mut room)? == "places" {
        let mut watch = Watch::start(rt)?;
        steps::make_map(rt, &file, &mut watch)
    } else {
        read_rounds(rt, &file)
    }
}

/// Reads units or line programs as often as the last word says.
fn read_rounds<R: AllocGlobal + Env + Print>(rt: &R, file: &[u8]) -> Option<()> {
    let mut room = [0; WORD];
    let rounds = word(rt, 3, &mut room)?.parse::<u32>().ok()?;
    let of_units = word(rt, 1, &mut room)? == "units";
    let elf = elf_sections::read(rt.alloc(), file).ok()?;
    for _ in 0..rounds {
        let read = count(rt.alloc(), &elf, of_units)?;
        println!(rt;
            "groups {}, items {}, bytes {}",
            read.groups, read.items, read.bytes
        )
        .ok()?;
    }
    Some(())
}

/// How much there is: entries in units, or rows in line programs.
fn count(alloc: Global, elf: &Elf<'_>, of_units: bool) -> Option<Amount> {
    if of_units {
        units::count(alloc, elf)
    } else {
        lines::count(alloc, elf)
    }
}

/// The word at a place, as text.
fn word<'a>(env: &impl Env, at: usize, room: &'a mut [u8; WORD]) -> Option<&'a str> {
    let len = env.arg(at, room).ok()?;
    str::from_utf8(&room[..len]).ok()
}
