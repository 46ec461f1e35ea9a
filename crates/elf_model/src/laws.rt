// The definitions seen from the other side.
ghost use Rattle.elf_model.specs.Laws.{LiveRangesAreCode, SectionsAreWithin};

/// A range of addresses is live exactly where one loaded executable segment holds it.
pub fn live_ranges_are_code()
    ensures { LiveRangesAreCode }
{}

/// The sections of a file without a bad place are within it.
pub fn sections_are_within()
    ensures { SectionsAreWithin }
{}
