// What a binary's map tells, as the definitions say it.
ghost use Rattle.binary_places.specs.Laws.{FunctionsAreTold, PlacesAreShown};

/// The map of a binary that was read shows the place of each of its addresses that was asked for,
/// in the names of the file.
pub fn places_are_shown()
    ensures { PlacesAreShown }
{}

/// The functions that are told of a binary are those of the file.
pub fn functions_are_told()
    ensures { FunctionsAreTold }
{}
