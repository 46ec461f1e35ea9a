ghost use Rattle.std.specs.Prelude.{◌<◌};
ghost use Rattle.row_table.specs.Told.{told};
ghost use Rattle.context_map.specs.Parts.{IsCutUp};

use row_table::RowTable;

/// The addresses between two others at which the row may change.
// Why: A span is cut only where line or discriminator change. Rows that differ in their column
// would cost a segment and tell nothing.
pub(crate) fn cuts_between(table: &RowTable, lo: u64, hi: u64) -> &[u64]
    requires { lo < hi }
    ensures { IsCutUp (told table.now) lo hi result.now }
{
    let cuts = table.cuts();
    let first = cuts.partition_point(|cut| *cut <= lo);
    let behind = &cuts[first..];
    let count = behind.partition_point(|cut| *cut < hi);
    &behind[..count]
}
