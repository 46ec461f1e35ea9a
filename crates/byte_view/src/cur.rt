ghost use Rattle.std.specs.Prelude.{◌≡◌, ◌+◌, ◌^◌, ◌<◌, ◌≤◌, ℕ, List, length, take, drop, IfOk, OnErr};

use crate::fault::ViewFault;
use crate::leb::{sleb_of, uleb_of};
use crate::part::Part;
use byteorder::{ByteOrder, LittleEndian};
use memchr::memchr;
use std::marker::Model;

/// A cursor over a piece of a file. Its place is an offset in the file.
///
/// What it hands out are slices of the file's bytes, which live as long as the file's buffer.
// Why: A cursor keeps its piece's end and what is left, so that no sum can overflow. It is no
// `Clone`, as a type with a model and a lifetime cannot be `Copy`: to read ahead there is `fork`.
#[derive(Debug, Drop)]
pub struct Cur<'a> {
    end: usize,
    rest: &'a [u8],
}

impl<'a> Model for Cur<'a> {
    ghost use Rattle.std.specs.Prelude.{◌-◌, ◌≤◌, length};
    ghost use Rattle.byte_view.specs.Cursor.{Cursor};

    ghost Value = { Cursor };

    ghost view = { λ c. record { at = c.end - length c.rest.now; left = c.rest.now } };

    ghost invariant = { λ c. length c.rest.now ≤ c.end };
}

impl<'a> Cur<'a> {
    ghost use Rattle.byte_view.specs.Part.{bytes_of_part};
    ghost use Rattle.byte_view.specs.Cursor.{IsOver, Passes, Reads};
    ghost use Rattle.byte_view.specs.Reading.{Gives, field_at, run_at, sleb_at, text_at, uleb_at};
    ghost use Rattle.byte_view.specs.Reading.{SpellsField, SpellsRun, SpellsText};
    ghost use Rattle.byte_view.specs.Reading.{SpellsSleb, SpellsUleb};

    /// A cursor at the start of the piece.
    pub fn new(part: Part<'a>) -> Cur<'a>
        ensures at { result.at ≡ part.entry.at }
        ensures left { result.left ≡ bytes_of_part part.entry }
        ensures file { IsOver part.entry.file.now result }
    {
        Cur {
            end: part.at + part.len,
            rest: part.bytes(),
        }
    }

    /// The place in the file.
    pub fn at(&self) -> usize
        ensures place { result ≡ self.now.at }
        ensures bounded { self.now.at + length self.now.left < 2 ^ 64 }
    {
        self.end - self.rest.len()
    }

    /// How many bytes are left.
    pub fn left(&self) -> usize
        ensures { result ≡ length self.now.left }
    {
        self.rest.len()
    }

    /// A second cursor at the same place, to read ahead.
    pub fn fork(&self) -> Cur<'a>
        ensures { result ≡ self.now }
    {
        Cur {
            end: self.end,
            rest: self.rest,
        }
    }

    /// Passes the next bytes, and answers them.
    fn pass(&mut self, count: usize) -> &'a [u8]
        requires { count ≤ length self.old.left }
        ensures bytes { result.now ≡ take count self.old.left }
        ensures left { self.new.left ≡ drop count self.old.left }
        ensures at { self.new.at ≡ self.old.at + count }
    {
        let (passed, rest) = self.rest.split_at(count);
        self.rest = rest;
        passed
    }

    /// The next `n` bytes, as a slice of the file.
    ///
    /// # Errors
    /// `Short` where fewer are left.
    #[tactic(auto, unfolding(crate::specs::Reading::run_at))]
    pub fn take(&mut self, n: u64) -> Result<&'a [u8], ViewFault>
        ensures found { IfOk result (λ run. Reads (SpellsRun n) self.old self.new run.now) }
        ensures exact { Gives (λ run. run.now) result self.new.left (run_at n self.old.left) }
        ensures err { OnErr result (self.new ≡ self.old) }
    {
        if n > self.rest.len() as u64 {
            return Err(ViewFault::Short);
        }
        Ok(self.pass(n as usize))
    }

    /// A byte.
    ///
    /// # Errors
    /// `Short` where none is left.
    #[tactic(auto, unfolding(crate::specs::Reading::field_at, crate::specs::Reading::run_at))]
    pub fn u8(&mut self) -> Result<u8, ViewFault>
        ensures found { IfOk result (Reads (SpellsField 1) self.old self.new) }
        ensures exact { Gives (λ n. n) result self.new.left (field_at 1 self.old.left) }
        ensures err { OnErr result (self.new ≡ self.old) }
    {
        Ok(self.take(1)?[0])
    }

    /// A field of 2 bytes, the lowest first.
    ///
    /// # Errors
    /// `Short` where the field passes the end.
    ///
    /// Source: System V gABI, "Data Encoding", `ELFDATA2LSB`.
    #[tactic(auto, unfolding(crate::specs::Reading::field_at, crate::specs::Reading::run_at))]
    pub fn u16(&mut self) -> Result<u16, ViewFault>
        ensures found { IfOk result (Reads (SpellsField 2) self.old self.new) }
        ensures exact { Gives (λ n. n) result self.new.left (field_at 2 self.old.left) }
        ensures err { OnErr result (self.new ≡ self.old) }
    {
        Ok(LittleEndian::read_u16(self.take(2)?))
    }

    /// A field of 3 bytes, the lowest first.
    ///
    /// # Errors
    /// `Short` where the field passes the end.
    ///
    /// Source: DWARF 5, section 7.5.5, `DW_FORM_strx3` and `DW_FORM_addrx3`; the lowest byte first
    /// as in System V gABI, "Data Encoding".
    #[tactic(auto, unfolding(crate::specs::Reading::field_at, crate::specs::Reading::run_at))]
    pub fn u24(&mut self) -> Result<u32, ViewFault>
        ensures found { IfOk result (Reads (SpellsField 3) self.old self.new) }
        ensures exact { Gives (λ n. n) result self.new.left (field_at 3 self.old.left) }
        ensures err { OnErr result (self.new ≡ self.old) }
    {
        Ok(LittleEndian::read_u24(self.take(3)?))
    }

    /// A field of 4 bytes, the lowest first.
    ///
    /// # Errors
    /// `Short` where the field passes the end.
    ///
    /// Source: System V gABI, "Data Encoding", `ELFDATA2LSB`.
    #[tactic(auto, unfolding(crate::specs::Reading::field_at, crate::specs::Reading::run_at))]
    pub fn u32(&mut self) -> Result<u32, ViewFault>
        ensures found { IfOk result (Reads (SpellsField 4) self.old self.new) }
        ensures exact { Gives (λ n. n) result self.new.left (field_at 4 self.old.left) }
        ensures err { OnErr result (self.new ≡ self.old) }
    {
        Ok(LittleEndian::read_u32(self.take(4)?))
    }

    /// A field of 8 bytes, the lowest first.
    ///
    /// # Errors
    /// `Short` where the field passes the end.
    ///
    /// Source: System V gABI, "Data Encoding", `ELFDATA2LSB`.
    #[tactic(auto, unfolding(crate::specs::Reading::field_at, crate::specs::Reading::run_at))]
    pub fn u64(&mut self) -> Result<u64, ViewFault>
        ensures found { IfOk result (Reads (SpellsField 8) self.old self.new) }
        ensures exact { Gives (λ n. n) result self.new.left (field_at 8 self.old.left) }
        ensures err { OnErr result (self.new ≡ self.old) }
    {
        Ok(LittleEndian::read_u64(self.take(8)?))
    }

    /// An unsigned LEB128 number.
    ///
    /// # Errors
    /// `LebTooLong` where the first nine bytes go on and the tenth is there and is neither 0 nor 1,
    /// and `Short` where the piece ends before the number's last byte.
    ///
    /// Source: DWARF 5, section 7.6.
    #[inline]
    pub fn uleb(&mut self) -> Result<u64, ViewFault>
        ensures found { IfOk result (Reads SpellsUleb self.old self.new) }
        ensures exact { Gives (λ n. n) result self.new.left (uleb_at self.old.left) }
        ensures err { OnErr result (self.new ≡ self.old) }
    {
        let (value, count) = uleb_of(self.rest)?;
        self.pass(count);
        Ok(value)
    }

    /// A signed LEB128 number, in two's complement.
    ///
    /// # Errors
    /// `LebTooLong` where the first nine bytes go on and the tenth is there and is neither 0x00 nor
    /// 0x7f, and `Short` where the piece ends before the number's last byte.
    ///
    /// Source: DWARF 5, section 7.6.
    #[inline]
    pub fn sleb(&mut self) -> Result<i64, ViewFault>
        ensures found { IfOk result (Reads SpellsSleb self.old self.new) }
        ensures exact { Gives (λ z. z) result self.new.left (sleb_at self.old.left) }
        ensures err { OnErr result (self.new ≡ self.old) }
    {
        let (value, count) = sleb_of(self.rest)?;
        self.pass(count);
        Ok(value)
    }

    /// A cursor over the next `n` bytes, at its first. This one passes them.
    ///
    /// # Errors
    /// `Short` where fewer are left.
    pub fn sub(&mut self, n: u64) -> Result<Cur<'a>, ViewFault>
        ensures at { IfOk result (λ piece. piece.at ≡ self.old.at) }
        ensures file { (file : List ℕ) → IsOver file self.old → IfOk result (IsOver file) }
        ensures found { IfOk result (λ piece. Reads (SpellsRun n) self.old self.new piece.left) }
        ensures exact { Gives (λ piece. piece.left) result self.new.left (run_at n self.old.left) }
        ensures err { OnErr result (self.new ≡ self.old) }
    {
        let at = self.at();
        let rest = self.take(n)?;
        Ok(Cur {
            end: at + rest.len(),
            rest,
        })
    }

    /// The bytes before the next NUL, which is passed too.
    ///
    /// # Errors
    /// `NoNul` where none is left.
    ///
    /// Source: DWARF 5, section 7.5.5, class `string`.
    pub fn cstr(&mut self) -> Result<&'a [u8], ViewFault>
        ensures found { IfOk result (λ text. Reads SpellsText self.old self.new text.now) }
        ensures exact { Gives (λ text. text.now) result self.new.left (text_at self.old.left) }
        ensures err { OnErr result (self.new ≡ self.old) }
    {
        let Some(nul) = memchr(0, self.rest) else {
            return Err(ViewFault::NoNul);
        };
        let passed = self.pass(nul + 1);
        Ok(&passed[..nul])
    }
}
