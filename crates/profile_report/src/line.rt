// One line of the report.
ghost use Rattle.std.specs.Prelude.{◌≡◌, ◌++◌, OnErr, OnOk};
ghost use Rattle.std.specs.Io.{StartsWith};
ghost use Rattle.branch_counts.specs.Table.{pair_of};
ghost use Rattle.report_model.specs.Report.{number_line, unmapped_line, word_of};

use branch_class::Reason;
use refusal::NoMemory;
use sample_model::Pair;
use text_scan::{push_hex, push_number};

/// Appends a line that tells how many there are of something.
pub(crate) fn push_number_line(out: &mut Vec<u8>, what: &[u8], n: u64) -> Result<(), NoMemory>
    ensures appended { OnOk result (out.new.items ≡ out.old.items ++ number_line what.now n) }
    ensures grows { OnErr result (StartsWith out.new.items out.old.items) }
{
    out.extend_from_slice(b"# ")?;
    out.extend_from_slice(what)?;
    out.push(b' ')?;
    push_number(out, u128::from(n))?;
    out.push(b'\n')?;
    Ok(())
}

/// Appends the line of an unmapped branch.
pub(crate) fn push_unmapped_line(
    out: &mut Vec<u8>,
    reason: Reason,
    branch: &Pair,
) -> Result<(), NoMemory>
    ensures appended { OnOk result (out.new.items
        ≡ out.old.items ++ unmapped_line reason (pair_of branch.now) branch.now.times) }
    ensures grows { OnErr result (StartsWith out.new.items out.old.items) }
{
    out.extend_from_slice(b"# unmapped ")?;
    out.extend_from_slice(word_of(reason))?;
    out.push(b' ')?;
    push_hex(out, branch.from)?;
    out.push(b' ')?;
    push_hex(out, branch.to)?;
    out.push(b' ')?;
    push_number(out, u128::from(branch.times))?;
    out.push(b'\n')?;
    Ok(())
}

/// The word of a reason.
fn word_of(reason: Reason) -> &'static [u8]
    ensures { result.now ≡ word_of reason }
{
    match reason {
        Reason::FromOutside => b"FromOutside",
        Reason::FromNameless => b"FromNameless",
        Reason::FromNoLine => b"FromNoLine",
        Reason::ToOutside => b"ToOutside",
        Reason::ToNameless => b"ToNameless",
    }
}
