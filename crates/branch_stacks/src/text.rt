// A branch text as one piece, and one line of it, judged and counted.
ghost use Rattle.std.specs.Prelude.{◌≡◌, ◌+◌, ◌<◌, ◌≤◌, ◌∷◌, ◌++◌, [], length, IsErrOf, OnErr, OnOk, vec_capacity, None};
ghost use Rattle.text_model.specs.Lines.{lines_of};
ghost use Rattle.refusal.specs.Place.{JudgesUnlessNoMemory};
ghost use Rattle.sample_model.specs.Judging.{first_bad_of_text, judged_lines_of};
ghost use Rattle.sample_model.specs.Line.{branches_of_line};
ghost use Rattle.sample_model.specs.Limits.{max_branches};
ghost use Rattle.branch_stacks.specs.Loads.{map_of, met_of, met_in, AddsLine};
ghost use Rattle.branch_counts.specs.Tally.{total_of, Tells};
ghost use Rattle.branch_stacks.specs.Text.{item_of_counted, TellsLinesBefore};
ghost use Rattle.branch_lines.specs.declared.line.TheConstants.{MAX_KEPT};

use crate::loads::Loads;
use crate::pieces::read_pieces;
use crate::reader::Reader;
use branch_counts::{Counts, CountsStop};
use branch_lines::read_line;
use refusal::{Kind, Place, Stop};
use text_scan::Line;

/// Counts the branches and the sampled ranges of a branch text, which is the command's file `file`.
/// Lines and files are numbered from 1. The counts have to hold nothing yet.
///
/// # Errors
/// `Refused` at the number of the first bad line, with `LineTooLong`, `BadLine`, `TooManyEntries`
/// or `TooManyBranches`, tried in this order; and where no line that ends within 2^40 bytes is bad
/// and the text is longer, `FileTooLarge` at 2^40. The counts then hold the lines before. After
/// `NoMemory` they hold the lines before some line, none of them bad.
///
/// Source: perf-script(1), "brstack".
// Why: Room for a line's entries comes from the counts' allocator, so none is asked for.
pub fn read_text(text: &[u8], file: u8, counts: &mut Counts) -> Result<(), Stop>
    requires { total_of counts.old ≡ 0 }
    ensures judged { JudgesUnlessNoMemory (first_bad_of_text file text.now) result
        (λ _. Tells None (lines_of text.now) counts.new) }
    ensures before { TellsLinesBefore file (judged_lines_of text.now) result counts.new }
    ensures ranged { counts.new.with_ranges ≡ counts.old.with_ranges }
{
    counts.keeps();
    let mut reader = Reader::new(counts.allocator(), file)?;
    read_pieces(&mut reader, &[text], counts)
}

/// Counts the branches and ranges of one line, moved by the loads, or takes the load that the line
/// tells of. `branches` is room for its branches.
pub(crate) fn count_line(
    line: Line<'_>,
    file: u8,
    branches: &mut Vec<(u64, u64)>,
    loads: &mut Option<Loads>,
    counts: &mut Counts,
) -> Result<(), Stop>
    requires { MAX_KEPT ≤ vec_capacity branches.old }
    ensures judged { JudgesUnlessNoMemory
        (item_of_counted file counts.old line.entry.number line.entry.bytes.now) result
        (λ _. AddsLine (map_of loads.old) (met_of loads.old) counts.old counts.new
        line.entry.bytes.now) }
    ensures met { OnOk result (met_of loads.new
        ≡ met_of loads.old ++ met_in (map_of loads.old) (line.entry.bytes.now ∷ [])) }
    ensures same { OnOk result (map_of loads.new ≡ map_of loads.old) }
    ensures err { OnErr result (counts.new ≡ counts.old) }
    ensures ranged { counts.new.with_ranges ≡ counts.old.with_ranges }
    ensures capacity { vec_capacity branches.new ≡ vec_capacity branches.old }
{
    if let Err(kind) = read_line(line.bytes, branches) {
        return Err(Stop::Refused(Place::on_line(file, line.number, kind)));
    }
    match count_branches(line.bytes, branches, loads, counts) {
        Ok(()) => Ok(()),
        Err(CountsStop::TooMany) => Err(Stop::Refused(Place::on_line(
            file,
            line.number,
            Kind::TooManyBranches,
        ))),
        Err(CountsStop::NoMemory) => Err(Stop::NoMemory),
    }
}

/// Counts the branches of a line and the ranges between them: as they stand where there are no
/// loads, and else moved by these.
fn count_branches(
    line: &[u8],
    branches: &[(u64, u64)],
    loads: &mut Option<Loads>,
    counts: &mut Counts,
) -> Result<(), CountsStop>
    requires { branches.now ≡ branches_of_line line.now }
    ensures added { OnOk result
        (AddsLine (map_of loads.old) (met_of loads.old) counts.old counts.new line.now) }
    ensures met { OnOk result (met_of loads.new
        ≡ met_of loads.old ++ met_in (map_of loads.old) (line.now ∷ [])) }
    ensures same { OnOk result (map_of loads.new ≡ map_of loads.old) }
    ensures fits { OnOk result (total_of counts.old + length branches.now ≤ max_branches) }
    ensures too_many { IsErrOf result CountsStop.TooMany
        → max_branches < total_of counts.old + length branches.now }
    ensures err { OnErr result (counts.new ≡ counts.old) }
    ensures ranged { counts.new.with_ranges ≡ counts.old.with_ranges }
{
    match loads {
        None => counts.add_stack(branches),
        Some(loads) => loads.count(line, branches, counts),
    }
}
