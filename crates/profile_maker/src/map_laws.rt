// What follows of a binary that was read.
ghost use Rattle.profile_maker.specs.MapLaws.{EntriesAreGiven, KeysHaveNames, PlacesAreGiven, SegmentsFit};

/// The key of each segment is among the keys of the binary, and its factor is below 4,096.
pub fn segments_fit()
    ensures { SegmentsFit }
{}

/// All names in the keys of a binary are among its names.
pub fn keys_have_names()
    ensures { KeysHaveNames }
{}

/// The key of an address is among the keys of the binary.
pub fn places_are_given()
    ensures { PlacesAreGiven }
{}

/// The name of a function that is entered at an address is among the names of the binary.
pub fn entries_are_given()
    ensures { EntriesAreGiven }
{}
