// What rows tell, seen from the other side.
ghost use Rattle.branch_counts.specs.Laws.{RowsTallyInAnyOrder, SortedRowsAreDistinctPairs, TablesCountMembers};

/// The times of the rows whose pair passes a test are the number of members of the list that do.
pub fn tables_count_members()
    ensures { TablesCountMembers }
{}

/// The rows of a list's pairs in order are the distinct pairs, each with how often it stands.
pub fn sorted_rows_are_distinct_pairs()
    ensures { SortedRowsAreDistinctPairs }
{}

/// Rows tell the same in any order.
pub fn rows_tally_in_any_order()
    ensures { RowsTallyInAnyOrder }
{}
