// The definitions seen from the other side.
ghost use Rattle.tree_model.specs.Laws.{ReadEntriesGoDown};

/// The entries that are read of a unit go down one at a time: the first less deep entry before one
/// is one level above it.
pub fn read_entries_go_down()
    ensures { ReadEntriesGoDown }
{}
