// A repair text, line by line.
ghost use Rattle.std.specs.Prelude.{◌≡◌, [], false, map, None, Some, IfOk, OnOk};
ghost use Rattle.refusal.specs.Place.{JudgesUnlessNoMemory};
ghost use Rattle.cfg_text.specs.Fun.{function_of};
ghost use Rattle.repair_model.specs.Judging as judging;
ghost use Rattle.repair_model.specs.Text.{is_end, repairs_of, untold};
ghost use Rattle.repair_text.specs.Reading.{Begins, IsFirstLine, Keeps, TakesIn, course_inside, course_of, done_of};
ghost use Rattle.repair_text.specs.Reading.{open_of, told_more};
ghost use Rattle.repair_text.specs.Said.{meaning_of};
ghost use Rattle.repair_text.specs.Repair.{numbered};

use crate::open::Told;
use crate::repair::Repair;
use crate::said::{RepairLine, read_line};
use cfg_text::Fun;
use refusal::{Kind, NoMemory, Place, Stop};
use std::alloc::Global;
use text_scan::{Line, Lines};

/// The first bytes of a line with which a function begins.
const BEGIN: &[u8] = b"# function ";

/// How far a text was read.
#[derive(Debug, Drop)]
pub(crate) struct Reading<'f, 'a> {
    alloc: Global,
    /// The functions that are still to come.
    left: &'f [Fun<'a>],
    opened: Option<Open<'f, 'a>>,
    repairs: Vec<Repair>,
}

/// A repair that is being read.
#[derive(Debug, Drop)]
pub(crate) struct Open<'f, 'a> {
    /// The number of its first line.
    line: u64,
    fun: &'f Fun<'a>,
    told: Told,
}

/// The repairs of these functions that a text spells, in their order. The text is the command's
/// file `file`; lines and files are numbered from 1. How large the text may be is for the caller to
/// judge.
///
/// A line that begins with `# function ` begins the next function; outside of functions all other
/// lines are passed over. Between fields there may be more than one space, and numbers may have
/// leading zeros.
///
/// # Errors
/// `Refused` at the number of the first bad line, with the first cause that holds of it:
/// - `BadLine` for any other form, or where the line cannot stand;
/// - a `# function` line: `Extra` behind the last function, `WrongFunction`;
/// - a `# block` line: `Extra` behind the last block, `WrongBlock`;
/// - an `# edge` line: `Missing` where a block is due, `Extra` in a cut or behind the last edge,
///   `WrongEdge`;
/// - an `# end` line: `Missing` where a block or an edge is due;
/// - the end of the text inside a function or with functions left, one line behind the last:
///   `Missing`.
pub fn read(alloc: Global, text: &[u8], file: u8, funs: &[Fun<'_>]) -> Result<Vec<Repair>, Stop>
    ensures { JudgesUnlessNoMemory
        (judging.first_bad_of_repairs file (map function_of funs.now) text.now) result
        (λ repairs. map numbered repairs.items ≡ repairs_of (map function_of funs.now) text.now) }
{
    let mut reading = Reading::new(alloc, funs);
    let mut last = 0;
    let mut lines = Lines::new(text);
    while let Some(line) = lines.next() {
        last = line.number;
        reading = reading.take_in(line, file)?;
    }
    if reading.is_unfinished() {
        return Err(Stop::Refused(Place::on_line(file, last + 1, Kind::Missing)));
    }
    Ok(reading.repairs)
}

impl<'f, 'a> Reading<'f, 'a> {
    /// Nothing was read, and these functions are to come.
    fn new(alloc: Global, funs: &'f [Fun<'a>]) -> Self
        ensures course { course_of result ≡ untold (map function_of funs.now) }
        ensures done { done_of result ≡ [] }
    {
        Reading {
            alloc,
            left: funs,
            opened: None,
            repairs: Vec::new(alloc),
        }
    }

    /// Whether something is still to be told.
    fn is_unfinished(&self) -> bool
        ensures { result ≡ judging.is_unfinished (course_of self.now) }
    {
        self.opened.is_some() || !self.left.is_empty()
    }

    /// Takes in a line.
    fn take_in(mut self, line: Line<'_>, file: u8) -> Result<Self, Stop>
        ensures { TakesIn file line.entry (course_of self.entry) (done_of self.entry) result }
    {
        match self.opened.take() {
            Some(opened) => self.inside(opened, line, file),
            None => self.outside(line, file),
        }
    }

    /// Takes in a line outside of functions.
    fn outside(self, line: Line<'_>, file: u8) -> Result<Self, Stop>
        requires { self.opened ≡ None }
        ensures { TakesIn file line.entry (course_of self.entry) (done_of self.entry) result }
    {
        if !line.bytes.starts_with(BEGIN) {
            return Ok(self);
        }
        let Some((name, told)) = first_line(self.alloc, line.bytes) else {
            return Err(Stop::Refused(Place::on_line(file, line.number, Kind::BadLine)));
        };
        let told = told.with_room(self.left)?;
        self.begin(name, told, line.number, file)
    }

    /// Begins the repair of the next function, which has to have this name.
    fn begin(self, name: &[u8], told: Told, at: u64, file: u8) -> Result<Self, Stop>
        ensures { Begins file at name.now self.entry told result }
    {
        let Some((fun, left)) = self.left.split_first() else {
            return Err(Stop::Refused(Place::on_line(file, at, Kind::Extra)));
        };
        if name != fun.name {
            return Err(Stop::Refused(Place::on_line(file, at, Kind::WrongFunction)));
        }
        Ok(Reading {
            alloc: self.alloc,
            left,
            opened: Some(Open {
                line: at,
                fun,
                told,
            }),
            repairs: self.repairs,
        })
    }

    /// Takes in a line of the repair that is open.
    fn inside(self, mut opened: Open<'f, 'a>, line: Line<'_>, file: u8) -> Result<Self, Stop>
        requires { self.opened ≡ None }
        ensures { TakesIn file line.entry (course_inside self.entry opened.entry)
            (done_of self.entry) result }
    {
        let Some(said) = read_line(line.bytes) else {
            return Err(Stop::Refused(Place::on_line(file, line.number, Kind::BadLine)));
        };
        if let Some(kind) = opened.told.cause_of(opened.fun, &said) {
            return Err(Stop::Refused(Place::on_line(file, line.number, kind)));
        }
        match said {
            RepairLine::EndOfFlow(cost) => Ok(self.keep(opened.told.close(opened.line, cost, 0))?),
            RepairLine::EndOfCut(least, most) => {
                Ok(self.keep(opened.told.close(opened.line, least, most))?)
            }
            said => {
                opened.add(&said)?;
                Ok(self.with_open(opened))
            }
        }
    }

    /// Puts a repair behind the others.
    fn keep(mut self, repair: Repair) -> Result<Self, NoMemory>
        ensures { IfOk result (λ reading. Keeps self.entry repair reading) }
    {
        self.repairs.push(repair)?;
        Ok(self)
    }

    /// The same where this repair is open.
    fn with_open(mut self, opened: Open<'f, 'a>) -> Self
        ensures { result ≡ record self.entry { opened = Some opened.entry } }
    {
        self.opened = Some(opened);
        self
    }
}

impl<'f, 'a> Open<'f, 'a> {
    /// Adds what a line tells of a block or an edge.
    fn add(&mut self, said: &RepairLine<'_>) -> Result<(), NoMemory>
        requires { is_end (meaning_of said.now) ≡ false }
        ensures { OnOk result
            (open_of self.new ≡ told_more (open_of self.old) (meaning_of said.now)) }
    {
        self.told.add(said)
    }
}

/// The name in a line that begins a function, and what it tells, if it has the form of one.
fn first_line<'t>(alloc: Global, line: &'t [u8]) -> Option<(&'t [u8], Told)>
    ensures { IsFirstLine line.now result }
{
    match read_line(line)? {
        RepairLine::Flow(name) => Some((name, Told::counts(alloc))),
        RepairLine::Cut(name, root) => Some((name, Told::sides(alloc, root))),
        _ => None,
    }
}
