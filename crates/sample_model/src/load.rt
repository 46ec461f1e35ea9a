/// Bytes of a file that were loaded into the memory of a process that was sampled, as a load line
/// tells.
#[derive(Clone, Copy, Debug, PartialEq, Eq)]
pub struct Load {
    /// The first address that was loaded.
    pub start: u64,
    /// How many addresses were loaded.
    pub len: u64,
    /// The offset in the file, in bytes, of what stands at the first address.
    pub offset: u64,
    /// Whether the file is the one whose samples are wanted.
    pub is_wanted: bool,
}
