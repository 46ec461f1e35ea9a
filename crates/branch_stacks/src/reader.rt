// A branch text that comes in pieces.
ghost use Rattle.std.specs.Prelude.{◌≡◌, ◌+◌, ◌<◌, ◌≤◌, ◌++◌, [], None, Some, length, IfErr, IfOk, OnErr, OnOk};
ghost use Rattle.refusal.specs.Place.{JudgesUnlessNoMemory};
ghost use Rattle.refusal.specs.declared.place.Stop.{Stop};
ghost use Rattle.sample_model.specs.Limits.{max_text_bytes};
ghost use Rattle.branch_stacks.specs.Loads.{AddsLine};
ghost use Rattle.branch_stacks.specs.Reader.{behind_line, new_reading, new_reading_by, held_of, room_of, EndsLine, Feeds, Finishes, ReadsMore};
ghost use Rattle.branch_stacks.specs.Text.{item_of_counted};

use crate::loads::Loads;
use crate::text::count_line;
use branch_counts::Counts;
use branch_lines::{MAX_KEPT, MAX_LINE_BYTES};
use load_model::LoadSegment;
use memchr::memchr;
use refusal::{Kind, NoMemory, Place, Stop, refuse_if};
use std::alloc::Global;
use std::marker::Model;
use text_scan::Line;

/// The most bytes of a text.
const MAX_TEXT_BYTES: u64 = 1 << 40;

/// How many bytes of an open line are held: one more than a line may have, by which it is known to
/// be too long.
const MAX_HELD: usize = MAX_LINE_BYTES + 1;

/// Counts the branches and the sampled ranges of a branch text that comes in pieces.
///
/// Each piece is fed to the reader, and then the text is finished. However it is cut, the counts
/// and the refusal are those of `read_text` over the whole. A line that lies whole in its piece is
/// read where it lies; of one that goes over a piece's end at most 65,537 bytes are held.
///
/// A reader that was made with loads moves each address by the last load line before its sample
/// that holds the address. A foreign address, of which no move is known, counts as 0, and a range
/// with a foreign end as one from 0 to 0.
///
/// Once a call has answered a `Stop`, each later call answers it again and counts nothing.
// Why: Behind `new` the counts alone grow. A reader with loads keeps more: the loads, spans made of
// them, and two lists for one sample's moved branches and ranges.
#[derive(Debug, Drop)]
pub struct Reader {
    file: u8,
    ended_lines: u64,
    held: Vec<u8>,
    size: u64,
    stop: Option<Stop>,
    branches: Vec<(u64, u64)>,
    loads: Option<Loads>,
}

// There is room for an open line and for a line's branches.
impl Model for Reader {
    ghost use Rattle.std.specs.Prelude.{◌+◌, ◌≤◌, length, vec_capacity};
    ghost use Rattle.sample_model.specs.Limits.{max_text_bytes};
    ghost use Rattle.branch_stacks.specs.Loads.{map_of, met_of};
    ghost use Rattle.branch_stacks.specs.Reader.{Reading};
    ghost use Rattle.branch_lines.specs.declared.line.TheConstants.{MAX_KEPT};
    ghost use Rattle.branch_stacks.specs.declared.reader.TheConstants.{MAX_HELD};

    ghost Value = { Reading };

    ghost view = { λ r. record {
      file = r.file;
      loading = map_of r.loads;
      ended_lines = r.ended_lines;
      met = met_of r.loads;
      held = r.held.items;
      size = r.size;
      stop = r.stop;
    } };

    ghost invariant = { λ r. (length r.held.items ≤ MAX_HELD) × (MAX_HELD ≤ vec_capacity r.held)
        × (MAX_KEPT ≤ vec_capacity r.branches)
        × (r.ended_lines + length r.held.items ≤ r.size) × (r.size ≤ max_text_bytes) };
}

impl Reader {
    /// A reader of the command's file `file`, which is numbered from 1. All the room that it needs
    /// is taken: what grows later are the counts.
    ///
    /// # Errors
    /// `NoMemory`.
    pub fn new(alloc: Global, file: u8) -> Result<Reader, NoMemory>
        ensures { IfOk result (λ reader. reader ≡ new_reading file) }
    {
        Ok(Reader {
            file,
            ended_lines: 0,
            held: Vec::with_capacity(alloc, MAX_HELD)?,
            size: 0,
            stop: None,
            branches: Vec::with_capacity(alloc, MAX_KEPT)?,
            loads: None,
        })
    }

    /// A reader of the command's file `file` that moves addresses. The program's file has this name
    /// in load lines, and `segments` are its segments of code in the order of their headers. What
    /// grows later are the counts, the loads that the text tells of with the spans made of them,
    /// and the two lists that one sample's branches and the ranges between them are moved into.
    ///
    /// # Errors
    /// `NoMemory`.
    ///
    /// Source: perf-script(1), `--show-mmap-events`; System V gABI, "Program Header".
    pub fn with_loads(
        alloc: Global,
        file: u8,
        name: &[u8],
        segments: &[LoadSegment],
    ) -> Result<Reader, NoMemory>
        ensures { IfOk result (λ reader. reader ≡ new_reading_by
            (Some (record { name = name.now; segments = segments.now })) file) }
    {
        let loads = Loads::new(alloc, name, segments)?;
        let mut reader = Reader::new(alloc, file)?;
        reader.loads = Some(loads);
        Ok(reader)
    }

    /// Reads the next piece of the text: judges and counts the lines that end in it. At the first
    /// call the counts have to hold nothing yet, and at each later one they are those that the call
    /// before left.
    ///
    /// # Errors
    /// `Refused` at the first line that has ended and is bad, and else with `FileTooLarge` at 2^40
    /// where the text has more bytes than that by now. The counts then hold the lines before. After
    /// `NoMemory` they hold the lines before some line, none of them bad.
    ///
    /// Source: perf-script(1), "brstack".
    pub fn feed(&mut self, piece: &[u8], counts: &mut Counts) -> Result<(), Stop>
        ensures judged { Feeds self.old counts.old piece.now result self.new counts.new }
        ensures goes_on { OnOk result ((self.new.file ≡ self.old.file)
            × (self.new.loading ≡ self.old.loading)
            × (self.new.size ≡ self.old.size + length piece.now)
            × (self.new.size ≤ max_text_bytes)) }
        ensures stops { IfErr result (λ stop. self.new.stop ≡ Some stop) }
        ensures again { (stop : Stop) → self.old.stop ≡ Some stop →
            (result ≡ Err stop) × (self.new ≡ self.old) × (counts.new ≡ counts.old) }
        ensures ranged { counts.new.with_ranges ≡ counts.old.with_ranges }
    {
        if let Some(stop) = self.stop {
            return Err(stop);
        }
        let result = self.read(piece, counts);
        self.stop = result.err();
        result
    }

    /// Ends the text: judges and counts an open rest as its last line. What is fed behind it begins
    /// a new line.
    ///
    /// # Errors
    /// As those of `feed`.
    pub fn finish(&mut self, counts: &mut Counts) -> Result<(), Stop>
        ensures judged { Finishes self.old counts.old result self.new counts.new }
        ensures goes_on { OnOk result ((self.new.file ≡ self.old.file)
            × (self.new.loading ≡ self.old.loading)
            × (self.new.size ≡ self.old.size)) }
        ensures stops { IfErr result (λ stop. self.new.stop ≡ Some stop) }
        ensures again { (stop : Stop) → self.old.stop ≡ Some stop →
            (result ≡ Err stop) × (self.new ≡ self.old) × (counts.new ≡ counts.old) }
        ensures ranged { counts.new.with_ranges ≡ counts.old.with_ranges }
    {
        if let Some(stop) = self.stop {
            return Err(stop);
        }
        let result = self.end_text(counts);
        self.stop = result.err();
        result
    }

    /// Reads a piece, of which no byte behind the limit of the text's size is judged.
    fn read(&mut self, piece: &[u8], counts: &mut Counts) -> Result<(), Stop>
        ensures judged { Feeds self.old counts.old piece.now result self.new counts.new }
        ensures goes_on { OnOk result ((self.new.file ≡ self.old.file)
            × (self.new.loading ≡ self.old.loading)
            × (self.new.size ≡ self.old.size + length piece.now)) }
        ensures ranged { counts.new.with_ranges ≡ counts.old.with_ranges }
    {
        let room = self.room();
        let too_large = Place {
            file: self.file,
            at: MAX_TEXT_BYTES,
            kind: Kind::FileTooLarge,
        };
        let front = &piece[..piece.len().min(room)];
        self.size += front.len() as u64;
        self.read_lines(front, counts)?;
        refuse_if(piece.len() > room, too_large)?;
        Ok(())
    }

    /// How many bytes more the text may have.
    fn room(&self) -> usize
        ensures { result ≡ room_of self.now }
    {
        (MAX_TEXT_BYTES - self.size) as usize
    }

    /// Judges and counts the lines that end in this part of the text, and holds the rest.
    fn read_lines(&mut self, part: &[u8], counts: &mut Counts) -> Result<(), Stop>
        requires { self.old.ended_lines + length self.old.held + length part.now ≤ self.old.size }
        ensures judged { ReadsMore self.old counts.old part.now result self.new counts.new }
        ensures goes_on { OnOk result ((self.new.file ≡ self.old.file)
            × (self.new.loading ≡ self.old.loading)
            × (self.new.size ≡ self.old.size)) }
        ensures ranged { counts.new.with_ranges ≡ counts.old.with_ranges }
    {
        let mut rest = part;
        while let Some(end) = memchr(b'\n', rest) {
            self.end_line(&rest[..end], counts)?;
            rest = &rest[end + 1..];
        }
        self.hold(rest);
        Ok(())
    }

    /// Judges and counts the open line, which these bytes end.
    fn end_line(&mut self, last: &[u8], counts: &mut Counts) -> Result<(), Stop>
        requires bytes { self.old.ended_lines + length self.old.held + length last.now
            ≤ self.old.size }
        requires line { self.old.ended_lines < self.old.size }
        ensures judged { EndsLine self.old counts.old (self.old.held ++ last.now) result
            self.new counts.new }
        ensures err { OnErr result (counts.new ≡ counts.old) }
        ensures ranged { counts.new.with_ranges ≡ counts.old.with_ranges }
    {
        if self.held.is_empty() {
            return self.end_whole_line(last, counts);
        }
        self.hold(last);
        self.end_held_line(counts)
    }

    /// Judges and counts a line that lies whole in its piece.
    fn end_whole_line(&mut self, line: &[u8], counts: &mut Counts) -> Result<(), Stop>
        requires empty { self.old.held ≡ [] }
        requires line { self.old.ended_lines < self.old.size }
        ensures judged { JudgesUnlessNoMemory
            (item_of_counted self.old.file counts.old (self.old.ended_lines + 1) line.now) result
            (λ _. AddsLine self.old.loading self.old.met counts.old counts.new line.now
            × (self.new ≡ behind_line self.old line.now)) }
        ensures err { OnErr result (counts.new ≡ counts.old) }
        ensures ranged { counts.new.with_ranges ≡ counts.old.with_ranges }
    {
        let line = Line {
            number: self.ended_lines + 1,
            bytes: line,
        };
        count_line(line, self.file, &mut self.branches, &mut self.loads, counts)?;
        self.ended_lines += 1;
        Ok(())
    }

    /// Judges and counts the line that is held.
    fn end_held_line(&mut self, counts: &mut Counts) -> Result<(), Stop>
        requires { 0 < length self.old.held }
        ensures judged { EndsLine self.old counts.old self.old.held result self.new counts.new }
        ensures err { OnErr result (counts.new ≡ counts.old) }
        ensures ranged { counts.new.with_ranges ≡ counts.old.with_ranges }
    {
        let line = Line {
            number: self.ended_lines + 1,
            bytes: &self.held,
        };
        count_line(line, self.file, &mut self.branches, &mut self.loads, counts)?;
        self.held.clear();
        self.ended_lines += 1;
        Ok(())
    }

    /// Adds bytes to the open line. Those behind the first that makes it too long are dropped.
    fn hold(&mut self, more: &[u8])
        requires { self.old.ended_lines + length self.old.held + length more.now ≤ self.old.size }
        ensures { self.new ≡ record self.old { held = held_of (self.old.held ++ more.now) } }
    {
        let room = MAX_HELD - self.held.len();
        let more = &more[..more.len().min(room)];
        self.held.extend_from_slice(more).unwrap();
    }

    /// Judges and counts an open rest as a line.
    fn end_text(&mut self, counts: &mut Counts) -> Result<(), Stop>
        ensures judged { Finishes self.old counts.old result self.new counts.new }
        ensures goes_on { OnOk result ((self.new.file ≡ self.old.file)
            × (self.new.loading ≡ self.old.loading)
            × (self.new.size ≡ self.old.size)) }
        ensures ranged { counts.new.with_ranges ≡ counts.old.with_ranges }
    {
        if self.held.is_empty() {
            return Ok(());
        }
        self.end_held_line(counts)
    }
}
