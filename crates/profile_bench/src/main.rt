//! Sweeps ranges and builds profiles of made-up programs, to be timed by `bench/profiles`.
//!
//! `profile_bench sweep RANGES SEGMENTS` sweeps so many ranges, and asks so many segments one
//! behind the other. `profile_bench keys KEYS 0` makes a program of so many keys, and
//! `profile_bench tree KEYS 0` builds and writes its profile as well. It prints a number that all
//! answers go into.
#![tactic(auto)]

mod hits;
mod program;
mod tree;

use std::process::ExitCode;
use std::rt::Env;

/// How many bytes a word may have.
const WORD: usize = 4096;

fn main(rt: HostRuntime) -> ExitCode {
    match measure(&rt) {
        Some(()) => ExitCode::from(0),
        None => ExitCode::from(1),
    }
}

/// Does what the words say, if it can be done.
fn measure<R: AllocGlobal + Env + Print>(rt: &R) -> Option<()> {
    let mut room = [0; WORD];
    let size = word(rt, 2, &mut room)?.parse::<u32>().ok()?;
    let asked = word(rt, 3, &mut room)?.parse::<u32>().ok()?;
    let number = match word(rt, 1, &mut room)? {
        "sweep" => hits::swept(rt.alloc(), size, asked).ok()?,
        "keys" => tree::keys(rt.alloc(), size).ok()?,
        "tree" => tree::text(rt.alloc(), size).ok()?,
        _ => return None,
    };
    println!(rt; "{number}").ok()
}

/// The word at a place, as text.
fn word<'a>(env: &impl Env, at: usize, room: &'a mut [u8; WORD]) -> Option<&'a str> {
    let len = env.arg(at, room).ok()?;
    str::from_utf8(&room[..len]).ok()
}
