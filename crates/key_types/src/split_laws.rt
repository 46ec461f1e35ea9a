// The definitions seen from the other side: what LLVM packs is read.
ghost use Rattle.key_types.specs.SplitLaws.{SplitReadsWhatIsPacked};

/// A base and a factor below 4,096 are read from the discriminator that LLVM packs of them; a
/// factor of 0 counts as 1.
pub fn split_reads_what_is_packed()
    ensures { SplitReadsWhatIsPacked }
{}
