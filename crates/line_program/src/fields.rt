// The fields of a program's header, one behind the other.
ghost use Rattle.std.specs.Prelude.{◌≡◌, ◌==◌, ◌<◌, if◌then◌else◌, true, length, IfOk};
ghost use Rattle.refusal.specs.Place.{in_binary};
ghost use Rattle.line_model.specs.Fields.{body_of, byte_but, field, lengths_at, opcodes_at, operations_at, sizes_at, unit_at, version_at};
ghost use Rattle.line_program.specs.Headers.{cursor_of, GivesBody, GivesField, GivesLengths, GivesPassed, GivesUnit};

use byte_view::{Cur, Part};
use refusal::{Kind, Place, refuse_if};

/// The length behind which a length of 8 bytes stands.
const LONG_LENGTH: u32 = 0xffff_ffff;

/// The first of the lengths that are reserved.
const RESERVED_LENGTHS: u32 = 0xffff_fff0;

/// The bytes of a program from its next field on. What each field is refused for stands at its
/// first byte.
#[derive(Debug, Drop)]
pub(crate) struct LineFields<'a> {
    pub cur: Cur<'a>,
}

impl<'a> LineFields<'a> {
    /// The place of the next field, where it is refused so.
    fn place(&self, kind: Kind) -> Place
        ensures { result ≡ in_binary self.now.cur.at kind }
    {
        Place::in_binary(self.cur.at(), kind)
    }

    /// A field of one byte.
    pub fn u8(&mut self) -> Result<u8, Place>
        ensures { GivesField result self.new.cur (field 1 self.old.cur) }
    {
        let place = self.place(Kind::Short);
        match self.cur.u8() {
            Ok(number) => Ok(number),
            Err(_) => Err(place),
        }
    }

    /// A field of two bytes.
    fn u16(&mut self) -> Result<u16, Place>
        ensures { GivesField result self.new.cur (field 2 self.old.cur) }
    {
        let place = self.place(Kind::Short);
        match self.cur.u16() {
            Ok(number) => Ok(number),
            Err(_) => Err(place),
        }
    }

    /// An offset, of 8 bytes in 64-bit DWARF and of 4 else.
    fn offset(&mut self, wide: bool) -> Result<u64, Place>
        ensures { GivesField result self.new.cur (field (if wide then 8 else 4) self.old.cur) }
    {
        let place = self.place(Kind::Short);
        if wide {
            match self.cur.u64() {
                Ok(number) => Ok(number),
                Err(_) => Err(place),
            }
        } else {
            match self.cur.u32() {
                Ok(number) => Ok(u64::from(number)),
                Err(_) => Err(place),
            }
        }
    }

    /// A program at the start of a piece: whether it is 64-bit DWARF, and its bytes behind its
    /// length.
    ///
    /// # Errors
    /// `BadUnitLength` at the length.
    ///
    /// Source: DWARF 5, section 7.4.
    #[tactic(auto, unfolding(line_model::specs::Fields::unit_at))]
    pub fn of_unit(part: Part<'a>) -> Result<(bool, LineFields<'a>), Place>
        ensures { GivesUnit result (unit_at (cursor_of part.entry)) }
    {
        let mut cur = Cur::new(part);
        let place = Place::in_binary(cur.at(), Kind::BadUnitLength);
        let Ok(first) = cur.u32() else {
            return Err(place);
        };
        if first == LONG_LENGTH {
            let Ok(size) = cur.u64() else {
                return Err(place);
            };
            return Ok((true, LineFields::of_size(size, cur, place)?));
        }
        refuse_if(first >= RESERVED_LENGTHS, place)?;
        Ok((false, LineFields::of_size(u64::from(first), cur, place)?))
    }

    /// The next bytes, so many of them.
    fn of_size(size: u64, mut cur: Cur<'a>, place: Place) -> Result<LineFields<'a>, Place>
        ensures { GivesBody result (body_of place true (size, cur.entry)) }
    {
        match cur.sub(size) {
            Ok(cur) => Ok(LineFields { cur }),
            Err(_) => Err(place),
        }
    }

    /// The version.
    ///
    /// # Errors
    /// `BadVersion` where it is none from 2 to 5.
    #[tactic(auto, unfolding(line_model::specs::Fields::version_at))]
    pub fn version(&mut self) -> Result<u16, Place>
        ensures { GivesField result self.new.cur (version_at self.old.cur) }
    {
        let place = self.place(Kind::BadVersion);
        let version = self.u16()?;
        refuse_if(version < 2 || version > 5, place)?;
        Ok(version)
    }

    /// Passes the sizes of addresses and of segment selectors, where the version has them.
    ///
    /// # Errors
    /// `BadAddressSize` where an address has another size than 8.
    #[tactic(auto, unfolding(line_model::specs::Fields::sizes_at))]
    pub fn pass_sizes(&mut self, version: u16) -> Result<(), Place>
        ensures { GivesPassed result self.new.cur (sizes_at version self.old.cur) }
    {
        if version != 5 {
            return Ok(());
        }
        let place = self.place(Kind::BadAddressSize);
        let size = self.u8()?;
        refuse_if(size != 8, place)?;
        let _selector_size = self.u8()?;
        Ok(())
    }

    /// Passes the header's length, and answers the bytes from the first opcode on.
    ///
    /// # Errors
    /// `Short` where the first opcode stands behind the program's end.
    #[tactic(auto, unfolding(line_model::specs::Fields::opcodes_at))]
    pub fn opcodes(&mut self, wide: bool) -> Result<Cur<'a>, Place>
        ensures { GivesField result self.new.cur (opcodes_at wide self.old.cur) }
    {
        let place = self.place(Kind::Short);
        let size = self.offset(wide)?;
        let mut opcodes = self.cur.fork();
        match opcodes.take(size) {
            Ok(_) => Ok(opcodes),
            Err(_) => Err(place),
        }
    }

    /// Passes how many operations an instruction has at most, where the version has it.
    ///
    /// # Errors
    /// `ManyOperations` where that is more than one.
    #[tactic(auto, unfolding(line_model::specs::Fields::operations_at))]
    pub fn pass_operations(&mut self, version: u16) -> Result<(), Place>
        ensures { GivesPassed result self.new.cur (operations_at version self.old.cur) }
    {
        if version < 4 {
            return Ok(());
        }
        let place = self.place(Kind::ManyOperations);
        let most = self.u8()?;
        refuse_if(most > 1, place)?;
        Ok(())
    }

    /// A field of one byte that is not 0.
    ///
    /// # Errors
    /// `kind` where it is.
    pub fn above_0(&mut self, kind: Kind) -> Result<u8, Place>
        ensures above { IfOk result (λ number. 0 < number) }
        ensures exact { GivesField result self.new.cur
            (byte_but (λ number. number == 0) kind self.old.cur) }
    {
        let place = self.place(kind);
        let number = self.u8()?;
        refuse_if(number == 0, place)?;
        Ok(number)
    }

    /// The lengths of so many opcodes.
    ///
    /// # Errors
    /// `Short` at the program's end, where the first one stands that is not there.
    #[tactic(auto, unfolding(line_model::specs::Fields::lengths_at))]
    pub fn lengths(&mut self, count: u8) -> Result<&'a [u8], Place>
        ensures sized { IfOk result (λ lengths. length lengths.now ≡ count) }
        ensures exact { GivesLengths result (lengths_at count self.old.cur) }
    {
        let end = Place::in_binary(self.cur.at() + self.cur.left(), Kind::Short);
        match self.cur.take(u64::from(count)) {
            Ok(lengths) => Ok(lengths),
            Err(_) => Err(end),
        }
    }
}
