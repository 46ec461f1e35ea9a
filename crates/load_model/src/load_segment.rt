/// A segment of a program as its header says that it is loaded.
///
/// Source: System V gABI, "Program Header", Elf64_Phdr.
// Why: It stands here and not with the ELF reader, since readers of branch texts should not stand
// on ELF.
#[derive(Clone, Copy, Debug, PartialEq, Eq)]
pub struct LoadSegment {
    /// Where it begins in the file, in bytes from the file's start (`p_offset`).
    pub offset: u64,
    /// The first address that it has in the program (`p_vaddr`).
    pub vaddr: u64,
    /// How many bytes it has in memory (`p_memsz`).
    pub size: u64,
}
