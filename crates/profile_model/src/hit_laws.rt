// The definitions seen from the other side.
ghost use Rattle.profile_model.specs.HitLaws.{HitsAreWithinTimes, HitsCountRanges, LargestIsOne};

/// Hits have one largest number over some addresses.
pub fn largest_is_one()
    ensures { LargestIsOne }
{}

/// Of ranges that were sampled once each, as many hold an address as it has hits.
pub fn hits_count_ranges()
    ensures { HitsCountRanges }
{}

/// No address has more hits than all ranges have times.
pub fn hits_are_within_times()
    ensures { HitsAreWithinTimes }
{}
