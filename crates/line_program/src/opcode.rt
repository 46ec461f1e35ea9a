// The operations of a program, read one by one.
ghost use Rattle.std.specs.Prelude.{◌-◌, ◌<◌, ◌≤◌, length, slice_index, OnOk};
ghost use Rattle.line_model.specs.Opcodes.{look_up, standard_opcodes};
ghost use Rattle.line_model.specs.Reading.{code_at, extended_at, operation_at, standard_at, ulebs_at};
ghost use Rattle.line_program.specs.Faults.{GivesOperation};

use crate::fault::Fault;
use crate::header::LineHeader;
use crate::tables::{extended_place, standard_place};
use byte_view::Cur;
use line_model::Operation;
use refusal::Kind;

/// An extended opcode whose bytes do not fit it.
const BAD_EXTENDED: Fault = Fault {
    kind: Kind::BadExtended,
};

impl<'a> LineHeader<'a> {
    /// Reads the operation at the front.
    ///
    /// # Errors
    /// `Short` and `LebTooLong` of its bytes, and `BadExtended`.
    ///
    /// Source: DWARF 5, section 6.2.5.
    #[tactic(auto, unfolding(line_model::specs::Reading::operation_at))]
    pub fn operation(&self, cur: &mut Cur<'_>) -> Result<Operation, Fault>
        ensures exact { GivesOperation result cur.new.left (operation_at self.now cur.old.left) }
        ensures shorter { OnOk result (length cur.new.left < length cur.old.left) }
    {
        let opcode = cur.u8()?;
        if opcode >= self.opcode_base {
            return Ok(Operation::Special(opcode - self.opcode_base));
        }
        if opcode == 0 {
            return extended(cur);
        }
        self.standard(opcode, cur)
    }

    /// Reads the operand of an opcode that is not special.
    ///
    /// Source: DWARF 5, section 6.2.5.2.
    fn standard(&self, opcode: u8, cur: &mut Cur<'_>) -> Result<Operation, Fault>
        requires from_1 { 0 < opcode }
        requires below_base { opcode < self.now.opcode_base }
        ensures exact { GivesOperation result cur.new.left
            (standard_at (look_up standard_opcodes opcode)
            (slice_index self.now.opcode_lengths (opcode - 1)) cur.old.left) }
        ensures shorter { OnOk result (length cur.new.left ≤ length cur.old.left) }
    {
        macro_rules! alone {
            ($operation:ident) => {
                Ok(Operation::$operation)
            };
        }
        macro_rules! operand {
            ($read:ident as $operation:ident) => {
                Ok(Operation::$operation(cur.$read()?))
            };
        }
        macro_rules! passed {
            () => {{
                let _operand = cur.uleb()?;
                Ok(Operation::Pass)
            }};
        }
        match standard_place(opcode) {
            Some(0) => alone!(Copy),
            Some(1) => operand!(uleb as AdvancePc),
            Some(2) => operand!(sleb as AdvanceLine),
            Some(3) => passed!(),
            Some(4) => passed!(),
            Some(5) => alone!(Pass),
            Some(6) => alone!(Pass),
            Some(7) => alone!(ConstAddPc),
            Some(8) => operand!(u16 as FixedAdvancePc),
            Some(9) => alone!(Pass),
            Some(10) => alone!(Pass),
            Some(11) => passed!(),
            _ => pass_ulebs(self.opcode_lengths[usize::from(opcode) - 1], cur),
        }
    }
}

/// Passes over so many operands.
fn pass_ulebs(count: u8, cur: &mut Cur<'_>) -> Result<Operation, Fault>
    ensures exact { GivesOperation result cur.new.left (ulebs_at count cur.old.left) }
    ensures shorter { OnOk result (length cur.new.left ≤ length cur.old.left) }
{
    for _ in 0..count {
        let _operand = cur.uleb()?;
    }
    Ok(Operation::Pass)
}

/// Reads an extended opcode behind its 0.
///
/// Source: DWARF 5, section 6.2.5.3.
#[tactic(auto, unfolding(line_model::specs::Reading::extended_at))]
fn extended(cur: &mut Cur<'_>) -> Result<Operation, Fault>
    ensures exact { GivesOperation result cur.new.left (extended_at cur.old.left) }
    ensures shorter { OnOk result (length cur.new.left ≤ length cur.old.left) }
{
    let size = cur.uleb()?;
    let mut run = cur.sub(size)?;
    extended_in(&mut run)
}

/// Reads the code of an extended opcode and its operand, in bytes of their own.
#[tactic(auto, unfolding(line_model::specs::Reading::code_at))]
fn extended_in(run: &mut Cur<'_>) -> Result<Operation, Fault>
    ensures { GivesOperation result run.new.left (code_at run.old.left) }
{
    let Ok(code) = run.u8() else {
        return Err(BAD_EXTENDED);
    };
    match extended_place(code) {
        Some(0) => Ok(Operation::EndSequence),
        Some(1) => {
            if run.left() != 8 {
                return Err(BAD_EXTENDED);
            }
            Ok(Operation::SetAddress(run.u64()?))
        }
        Some(3) => {
            let disc = run.uleb()? % (1 << 32);
            Ok(Operation::SetDiscriminator(disc as u32))
        }
        _ => Ok(Operation::Pass),
    }
}
