// One of the three files.
ghost use Rattle.std.specs.Prelude.{◌≡◌, ◌++◌, ◌<◌, ◌≤◌, ◌↔◌, Err, IfOk, OnErr, OnOk};
ghost use Rattle.case_maker.specs.Case.{case_file};
ghost use Rattle.case_maker.specs.declared.case.CaseStop.TheVariants.{NoMemory as no_memory};

use crate::blocks::push_blocks;
use crate::elf::push_binary;
use crate::function::MAX_FUNCTIONS;
use crate::samples::push_samples;
use refusal::NoMemory;
use std::alloc::Global;
use thiserror::Error;

/// The files of a case.
#[derive(Clone, Copy, Debug, PartialEq, Eq)]
pub enum CasePart {
    /// The binary: an ELF64 file with the debugging information of its functions, and no code.
    Bin,
    /// The branch text, as `perf script -F ip,brstack` prints it.
    Perf,
    /// The block text.
    Cfg,
}

/// Why no file was made.
#[derive(Clone, Copy, Debug, PartialEq, Eq, Error)]
pub enum CaseStop {
    /// The program would have more than 4,096 functions.
    #[error("more than 4096 functions")]
    TooLargeCase,
    /// Memory was refused.
    #[error("no memory")]
    NoMemory,
}

impl From<NoMemory> for CaseStop {
    ghost from_gives = { λ _ stop. stop ≡ no_memory };

    fn from(_: NoMemory) -> Self {
        CaseStop::NoMemory
    }
}

/// Appends one of the files of a program of `n` functions.
///
/// # Errors
/// `TooLargeCase`, exactly where `n` is above 4,096, or `NoMemory`; `out` is then as it was.
pub fn make(n: u64, which: CasePart, out: &mut Vec<u8>) -> Result<(), CaseStop>
    ensures made { OnOk result (out.new.items ≡ out.old.items ++ case_file which n) }
    ensures too_large { (result ≡ Err CaseStop.TooLargeCase) ↔ (4096 < n) }
    ensures unchanged { OnErr result (out.new.items ≡ out.old.items) }
{
    if n > MAX_FUNCTIONS {
        return Err(CaseStop::TooLargeCase);
    }
    let file = file_of(*out.allocator(), n, which)?;
    push(out, &file)?;
    Ok(())
}

/// One of the files of a program of `n` functions, by itself, so that none is appended in part.
fn file_of(alloc: Global, n: u64, which: CasePart) -> Result<Vec<u8>, NoMemory>
    requires { n ≤ MAX_FUNCTIONS }
    ensures { IfOk result (λ file. file.items ≡ case_file which n) }
{
    let mut file = Vec::new(alloc);
    match which {
        CasePart::Bin => push_binary(&mut file, n)?,
        CasePart::Perf => push_samples(&mut file, n)?,
        CasePart::Cfg => push_blocks(&mut file, n)?,
    }
    Ok(file)
}

/// Appends bytes.
fn push(out: &mut Vec<u8>, bytes: &[u8]) -> Result<(), NoMemory>
    ensures appended { OnOk result (out.new.items ≡ out.old.items ++ bytes.now) }
    ensures unchanged { OnErr result (out.new.items ≡ out.old.items) }
{
    out.extend_from_slice(bytes)?;
    Ok(())
}
