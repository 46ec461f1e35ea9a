// The block text.
ghost use Rattle.std.specs.Prelude.{◌≡◌, ◌++◌, ◌<◌, ◌≤◌, OnOk};
ghost use Rattle.case_model.specs.Blocks.{block_line, block_text, blocks_of, edge_line, extent};

use crate::function::{MAX_FUNCTIONS, address, name};
use refusal::NoMemory;
use text_scan::{push_hex, push_number};

/// Appends the block text of `n` functions.
#[tactic(auto, unfolding(case_model::specs::Blocks::block_text))]
pub fn push_blocks(out: &mut Vec<u8>, n: u64) -> Result<(), NoMemory>
    requires { n ≤ MAX_FUNCTIONS }
    ensures { OnOk result (out.new.items ≡ out.old.items ++ block_text n) }
{
    for k in 0..n {
        push_function(out, k)?;
    }
    Ok(())
}

/// Appends the blocks and edges of function `k`.
#[tactic(auto, unfolding(case_model::specs::Blocks::blocks_of))]
fn push_function(out: &mut Vec<u8>, k: u64) -> Result<(), NoMemory>
    requires { k < MAX_FUNCTIONS }
    ensures { OnOk result (out.new.items ≡ out.old.items ++ blocks_of k) }
{
    let start = address(k);
    out.extend_from_slice(b"func ")?;
    out.extend_from_slice(&name(k))?;
    out.push(b'\n')?;
    push_block(out, 0, start, start + 0x8, b"")?;
    push_block(out, 1, start + 0x8, start + 0x10, b"")?;
    push_block(out, 2, start + 0x10, start + 0x20, b"")?;
    push_block(out, 3, start + 0x20, start + 0x40, b" exit")?;
    push_edge(out, 0, 1)?;
    push_edge(out, 0, 2)?;
    push_edge(out, 1, 3)?;
    push_edge(out, 2, 3)?;
    out.extend_from_slice(b"end\n")?;
    Ok(())
}

/// Appends a block's line: its number, its addresses, and what else is said of it.
#[tactic(auto, unfolding(case_model::specs::Blocks::block_line))]
fn push_block(
    out: &mut Vec<u8>,
    number: u32,
    from: u64,
    to: u64,
    more: &[u8],
) -> Result<(), NoMemory>
    ensures { OnOk result (out.new.items ≡ out.old.items ++ block_line number from to more.now) }
{
    out.extend_from_slice(b"block ")?;
    push_number(out, u128::from(number))?;
    push_extent(out, from, to)?;
    out.extend_from_slice(more)?;
    out.push(b'\n')?;
    Ok(())
}

/// Appends a block's addresses, behind a space each.
#[tactic(auto, unfolding(case_model::specs::Blocks::extent))]
fn push_extent(out: &mut Vec<u8>, from: u64, to: u64) -> Result<(), NoMemory>
    ensures { OnOk result (out.new.items ≡ out.old.items ++ extent from to) }
{
    out.push(b' ')?;
    push_hex(out, from)?;
    out.push(b' ')?;
    push_hex(out, to)?;
    Ok(())
}

/// Appends an edge's line.
#[tactic(auto, unfolding(case_model::specs::Blocks::edge_line))]
fn push_edge(out: &mut Vec<u8>, from: u32, to: u32) -> Result<(), NoMemory>
    ensures { OnOk result (out.new.items ≡ out.old.items ++ edge_line from to) }
{
    out.extend_from_slice(b"edge ")?;
    push_number(out, u128::from(from))?;
    out.push(b' ')?;
    push_number(out, u128::from(to))?;
    out.push(b'\n')?;
    Ok(())
}
