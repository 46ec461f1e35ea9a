/// What a row says of its addresses: a line, which counts from 1 and is 0 where there is none, and
/// a discriminator.
#[derive(Clone, Copy, Debug, PartialEq, Eq)]
pub struct RowData {
    pub line: u32,
    pub disc: u32,
}
