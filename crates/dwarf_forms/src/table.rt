ghost use Rattle.std.specs.Prelude.{◌≡◌, ◌==◌, IsTrue, position};
ghost use Rattle.dwarf_forms.specs.Table.{ascends};

/// A table of codes, of forms or of operations, each above the one before it.
#[derive(Clone, Copy, Debug)]
pub struct FormTable<const N: usize> {
    pub codes: [u64; N],
}

impl<const N: usize> FormTable<N> {
    /// The place of a code in the table, where it is there. The codes have to ascend.
    pub fn index_of(&self, code: u64) -> Option<usize>
        requires { IsTrue (ascends self.now.codes) }
        ensures { result ≡ position (λ other. other == code) self.now.codes }
    {
        self.codes.binary_search(&code).ok()
    }
}

/// The codes of the forms that the standard names.
///
/// Source: DWARF 5, section 7.5.6, table 7.6.
pub const FORMS: FormTable<43> = FormTable {
    codes: [
        0x01, 0x03, 0x04, 0x05, 0x06, 0x07, 0x08, 0x09, 0x0a, 0x0b, 0x0c, 0x0d, 0x0e, 0x0f, 0x10,
        0x11, 0x12, 0x13, 0x14, 0x15, 0x16, 0x17, 0x18, 0x19, 0x1a, 0x1b, 0x1c, 0x1d, 0x1e, 0x1f,
        0x20, 0x21, 0x22, 0x23, 0x24, 0x25, 0x26, 0x27, 0x28, 0x29, 0x2a, 0x2b, 0x2c,
    ],
};
