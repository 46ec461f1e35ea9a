// A block text, line by line.
ghost use Rattle.std.specs.Prelude.{◌≡◌, ◌≤◌, ◌∷◌, ◌++◌, [], length, map, OnOk};
ghost use Rattle.refusal.specs.Place.{JudgesUnlessNoMemory};
ghost use Rattle.block_model.specs.Judging.{first_bad_of_text};
ghost use Rattle.block_model.specs.Text.{functions_of};
ghost use Rattle.cfg_text.specs.Fun.{function_of};
ghost use Rattle.cfg_text.specs.Reading.{Begins, IsNumbered, ReadsFunction, TakesIn, goes_on_at};

use crate::draft::Draft;
use crate::fun::Fun;
use crate::said::{BlockLine, read_line};
use refusal::{ItemStop, Kind, NoMemory, Place, Stop};
use std::alloc::Global;
use text_scan::{Line, Lines};

/// The functions of a block text, which is the command's file `file`, in their order. Lines and
/// files are numbered from 1. How large the text may be is for the caller to judge.
///
/// # Errors
/// `Refused` at the number of the first bad line, with the first cause that holds of it:
/// - `BadLine` for any other form, or where the line cannot stand;
/// - a block line: `TooManyBlocks`, `BlockOrder`, `BlockEmpty`, `BlockOverlap`, `BadBound`;
/// - an edge line: `TooManyEdges`, `EdgeEnd`, `EdgeTwice`, `BadBound`;
/// - an `end` line: `NoBlocks`;
/// - the end of the text inside a function, one line behind the last: `NoEndLine`.
pub fn read<'a>(alloc: Global, text: &'a [u8], file: u8) -> Result<Vec<Fun<'a>>, Stop>
    ensures { JudgesUnlessNoMemory (first_bad_of_text file text.now) result
        (λ funs. map function_of funs.items ≡ functions_of text.now) }
{
    let mut funs = Vec::new(alloc);
    let mut lines = Lines::new(text);
    while let Some(line) = lines.next() {
        let Some(name) = begun(line, file)? else {
            continue;
        };
        let draft = Draft::new(alloc, name);
        let fun = read_function(draft, file, line.number, &mut lines)?;
        keep(&mut funs, fun)?;
    }
    Ok(funs)
}

/// Puts a function behind the others.
fn keep<'a>(funs: &mut Vec<Fun<'a>>, fun: Fun<'a>) -> Result<(), NoMemory>
    ensures { OnOk result (funs.new.items ≡ funs.old.items ++ fun.entry ∷ []) }
{
    funs.push(fun)?;
    Ok(())
}

/// The name of the function that a line outside all functions begins, if it begins one.
fn begun<'a>(line: Line<'a>, file: u8) -> Result<Option<&'a [u8]>, Place>
    ensures { Begins file line.entry result }
{
    let Some(said) = read_line(line.bytes) else {
        return Err(Place::on_line(file, line.number, Kind::BadLine));
    };
    match said {
        BlockLine::Nothing => Ok(None),
        BlockLine::Begins(name) => Ok(Some(name)),
        BlockLine::Block(_, _) => Err(Place::on_line(file, line.number, Kind::BadLine)),
        BlockLine::Edge(_, _, _) => Err(Place::on_line(file, line.number, Kind::BadLine)),
        BlockLine::Ends => Err(Place::on_line(file, line.number, Kind::BadLine)),
    }
}

/// Reads the lines of a function behind its first, which has the number `at`.
fn read_function<'a>(
    mut draft: Draft<'a>,
    file: u8,
    at: u64,
    lines: &mut Lines<'a>,
) -> Result<Fun<'a>, Stop>
    requires { IsNumbered at lines.old }
    ensures read { ReadsFunction file draft.entry at lines.old result lines.new }
    ensures shorter { length lines.new ≤ length lines.old }
{
    let mut last = at;
    while let Some(line) = lines.next() {
        last = line.number;
        if take_in(&mut draft, line, file)? {
            return Ok(draft.close());
        }
    }
    Err(Stop::Refused(Place::on_line(file, last + 1, Kind::NoEndLine)))
}

/// Takes in a line inside a function, and says whether it ends the function.
fn take_in<'a>(draft: &mut Draft<'a>, line: Line<'a>, file: u8) -> Result<bool, Stop>
    ensures { TakesIn file line.entry draft.old result draft.new }
{
    let at = line.number;
    let Some(said) = read_line(line.bytes) else {
        return Err(Stop::Refused(Place::on_line(file, at, Kind::BadLine)));
    };
    match said {
        BlockLine::Nothing => Ok(false),
        BlockLine::Block(number, block) => goes_on(draft.add_block(number, block), file, at),
        BlockLine::Edge(from, to, bound) => goes_on(draft.add_edge(from, to, bound), file, at),
        BlockLine::Ends if draft.is_empty() => Err(Stop::Refused(Place::on_line(
            file,
            at,
            Kind::NoBlocks,
        ))),
        BlockLine::Ends => Ok(true),
        BlockLine::Begins(_) => Err(Stop::Refused(Place::on_line(file, at, Kind::BadLine))),
    }
}

/// What a line that was added, or was not, means for the text.
fn goes_on(added: Result<(), ItemStop>, file: u8, at: u64) -> Result<bool, Stop>
    ensures { result ≡ goes_on_at file at added }
{
    match added {
        Ok(()) => Ok(false),
        Err(stop) => Err(stop.on_line(file, at)),
    }
}
