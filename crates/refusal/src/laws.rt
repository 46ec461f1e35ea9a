// The definitions seen from the other side.
ghost use Rattle.refusal.specs.Laws.{PlacesComeInOrder};

/// The first bad place of items that stand behind others is the first one only where those before
/// have none.
pub fn places_come_in_order()
    ensures { PlacesComeInOrder }
{}
