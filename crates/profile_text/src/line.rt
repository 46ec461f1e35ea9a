// One line, up to its line feed.
ghost use Rattle.std.specs.Prelude.{◌≡◌, ◌<◌, ◌++◌, codes, length, map, OnErr, OnOk};
ghost use Rattle.std.specs.Io.{StartsWith};
ghost use Rattle.std.specs.List.{All, flat_map};
ghost use Rattle.profile_model.specs.Text.{disc_text, indent, line_text, location_text, named_text, target_text};
ghost use Rattle.profile_tree.specs.Told.{IsOf, told, told_target};
ghost use Rattle.key_types.specs.Numbers.{name_of};

use key_types::{NameId, Names};
use profile_tree::{Line, Target};
use refusal::NoMemory;
use text_scan::push_number;

/// Appends what stands in a line.
#[tactic(auto, using(text_scan::proofs::Growth::still_in_front))]
pub fn push_line(out: &mut Vec<u8>, names: &Names, line: &Line) -> Result<(), NoMemory>
    requires { IsOf names.now line.now }
    ensures appended { OnOk result (out.new.items
        ≡ out.old.items ++ line_text (told names.now line.now)) }
    ensures grows { OnErr result (StartsWith out.new.items out.old.items) }
{
    match line {
        Line::Function { name, total, head } => {
            push_named(out, name_of(names, *name), *total)?;
            out.push(b':')?;
            push_number(out, u128::from(*head))
        }
        Line::Body {
            depth,
            offset,
            disc,
            count,
            targets,
        } => {
            push_location(out, *depth, *offset, *disc)?;
            push_number(out, u128::from(*count))?;
            push_targets(out, names, targets.as_slice())
        }
        Line::Call {
            depth,
            offset,
            disc,
            name,
            total,
        } => {
            push_location(out, *depth, *offset, *disc)?;
            push_named(out, name_of(names, *name), *total)
        }
    }
}

/// The name of a number that was given.
fn name_of<'a>(names: &Names<'a>, id: NameId) -> &'a [u8]
    requires { id.0 < length names.now }
    ensures { result.now ≡ name_of names.now id }
{
    names.get(id)
}

/// Appends where a line or a call stands, up to the colon and the space behind it.
#[tactic(auto, using(text_scan::proofs::Growth::still_in_front))]
fn push_location(out: &mut Vec<u8>, depth: usize, offset: u16, disc: u32) -> Result<(), NoMemory>
    ensures appended { OnOk result (out.new.items
        ≡ out.old.items ++ (indent depth ++ location_text offset disc ++ codes ": ")) }
    ensures grows { OnErr result (StartsWith out.new.items out.old.items) }
{
    push_indent(out, depth)?;
    push_number(out, u128::from(offset))?;
    push_disc(out, disc)?;
    out.extend_from_slice(b": ")?;
    Ok(())
}

/// Appends a space for each step above a line.
#[tactic(auto, using(crate::proofs::JoinLemmas::indent_more))]
fn push_indent(out: &mut Vec<u8>, depth: usize) -> Result<(), NoMemory>
    ensures appended { OnOk result (out.new.items ≡ out.old.items ++ indent depth) }
    ensures grows { OnErr result (StartsWith out.new.items out.old.items) }
{
    for _ in 0..depth {
        out.push(b' ')?;
    }
    Ok(())
}

/// Appends a discriminator behind a dot, unless it is 0.
fn push_disc(out: &mut Vec<u8>, disc: u32) -> Result<(), NoMemory>
    ensures appended { OnOk result (out.new.items ≡ out.old.items ++ disc_text disc) }
    ensures grows { OnErr result (StartsWith out.new.items out.old.items) }
{
    if disc == 0 {
        return Ok(());
    }
    out.push(b'.')?;
    push_number(out, u128::from(disc))
}

/// Appends a name, and behind a colon a number of it.
fn push_named(out: &mut Vec<u8>, name: &[u8], n: u64) -> Result<(), NoMemory>
    ensures appended { OnOk result (out.new.items ≡ out.old.items ++ named_text name.now n) }
    ensures grows { OnErr result (StartsWith out.new.items out.old.items) }
{
    out.extend_from_slice(name)?;
    out.push(b':')?;
    push_number(out, u128::from(n))
}

/// Appends the targets of a line, a space before each.
#[tactic(auto, using(text_scan::proofs::Growth::still_in_front))]
fn push_targets(out: &mut Vec<u8>, names: &Names, targets: &[Target]) -> Result<(), NoMemory>
    requires { All (λ target. target.name.0 < length names.now) targets.now }
    ensures appended { OnOk result (out.new.items
        ≡ out.old.items ++ flat_map target_text (map (told_target names.now) targets.now)) }
    ensures grows { OnErr result (StartsWith out.new.items out.old.items) }
{
    for target in targets {
        out.push(b' ')?;
        push_named(out, name_of(names, target.name), target.times)?;
    }
    Ok(())
}
