// How one command answers what another one wrote.
ghost use Rattle.command_laws.specs.Checked.{CheckedIsLeast};
ghost use Rattle.command_laws.specs.Cold.{ColdIsOfBoth};
ghost use Rattle.command_laws.specs.Entries.{EntriesCount};
ghost use Rattle.command_laws.specs.Laws.{BuiltIsAccepted};
ghost use Rattle.command_laws.specs.Merged.{BuiltIsMerged, ProfiledIsMerged};
ghost use Rattle.command_laws.specs.Orders.{MergesInAnyOrder};

/// Where `build` may write a text of at most 2^28 bytes, `check` accepts it with the same block
/// text: neither file has a bad place, and no line fails its test.
pub fn what_build_writes_is_accepted()
    ensures { BuiltIsAccepted }
{}

/// Where `check` answers that all is well, each function of the block text has in the repair text
/// least counts with their cost, or a cut where no counts conserve within bounds.
pub fn what_check_passes_is_least()
    ensures { CheckedIsLeast }
{}

/// A sampled branch that enters a function counts once in its head, and once in its target where it
/// came from a line: all heads are as many as the entries of the report.
pub fn entries_count_in_heads_and_targets()
    ensures { EntriesCount }
{}

/// Where `profile` may write a text of at most 2^28 bytes, `merge` of that text alone, with weight
/// 1, accepts it and writes its profile lines again, without the report.
pub fn what_profile_writes_is_merged()
    ensures { ProfiledIsMerged }
{}

/// Where `profile` may write a text of at most 2^28 bytes, `pgo-cold` writes of the samples what it
/// writes of that text, and then the report.
pub fn cold_lines_of_samples_or_of_their_text()
    ensures { ColdIsOfBoth }
{}

/// Where `build` may write a text of at most 2^28 bytes, `merge` of it alone, with weight 1,
/// accepts it and writes its profile lines again, without the repairs and the report.
pub fn what_build_writes_is_merged()
    ensures { BuiltIsMerged }
{}

/// Files that `merge` accepts with their weights it accepts in any other order, and writes the same
/// text.
pub fn merges_in_any_order()
    ensures { MergesInAnyOrder }
{}
