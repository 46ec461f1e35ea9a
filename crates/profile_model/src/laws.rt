// The definitions seen from the other side: lists in order are the ascending ones.
ghost use Rattle.profile_model.specs.Laws.{OnlyOrderedIsInOrder, OrderedIsInOrder, OrdersTellApart};
ghost use Rattle.profile_model.specs.Ways.{Way};
ghost use Rattle.std.specs.Prelude.{List, ℕ};

/// Any two lines of a profile that differ stand one before the other, and so do any two targets.
pub fn orders_tell_apart()
    ensures { OrdersTellApart }
{}

/// The lines of a profile and the targets of a line ascend, and are those that they were made of.
pub fn ordered_is_in_order()
    ensures ways { OrderedIsInOrder Way }
    ensures targets { OrderedIsInOrder (List ℕ × ℕ) }
{}

/// No other list of lines ascends and is made of the same, and no other list of targets.
pub fn only_ordered_is_in_order()
    ensures ways { OnlyOrderedIsInOrder Way }
    ensures targets { OnlyOrderedIsInOrder (List ℕ × ℕ) }
{}
