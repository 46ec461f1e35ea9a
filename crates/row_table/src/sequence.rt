ghost use Rattle.std.specs.Prelude.{◌≡◌};
ghost use Rattle.std.specs.Option.{option_map};
ghost use Rattle.line_model.specs.Rows.{addresses_of, is_live_sequence, never_fall, row_in};
ghost use Rattle.row_table.specs.Index.{IsRising};
ghost use Rattle.row_table.specs.Told.{data_of};

use crate::row_data::RowData;
use elf_sections::Elf;
use line_model::Row;
use std::marker::Model;

/// A sequence: its rows, and the row that ends it.
///
/// Source: DWARF 5, section 6.2.5.3, `DW_LNE_end_sequence`.
#[derive(Clone, Debug, Drop)]
pub(crate) struct Sequence {
    pub rows: Vec<Row>,
    pub end: Row,
}

impl Model for Sequence {
    ghost use Rattle.line_model.specs.Rows.{Sequence};

    ghost Value = { Sequence };

    ghost view = { λ s. record { rows = s.rows.items; end = s.end } };
}

impl Sequence {
    /// Whether the sequence has rows, its addresses never fall, and its range is code of the file.
    pub fn is_live(&self, elf: &Elf<'_>) -> bool
        ensures { result ≡ is_live_sequence elf.now self.now }
    {
        match self.rows.first() {
            None => false,
            Some(first) => elf.runs(first.address, self.end.address) && self.is_rising(),
        }
    }

    /// Whether no address is below the one before.
    fn is_rising(&self) -> bool
        ensures { result ≡ never_fall (addresses_of self.now) }
    {
        let mut last = 0;
        for row in &self.rows {
            if row.address < last {
                return false;
            }
            last = row.address;
        }
        last <= self.end.address
    }

    /// The last row whose address is not above this one.
    pub fn row_at(&self, address: u64) -> Option<RowData>
        requires { IsRising self.now }
        ensures { result ≡ option_map data_of (row_in address self.now) }
    {
        let behind = self.rows.partition_point(|row| row.address <= address);
        if behind == 0 {
            return None;
        }
        let row = self.rows[behind - 1];
        Some(RowData {
            line: row.line,
            disc: row.disc,
        })
    }
}
