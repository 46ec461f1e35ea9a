// The counts seen from the addresses.
ghost use Rattle.profile_lists.specs.Laws.{CountsAreThoseOfPlaces};

/// The counts of segments are those of the places of addresses, which the segments tell.
pub fn counts_are_those_of_places()
    ensures { CountsAreThoseOfPlaces }
{}
