// What a profile is made of.
use profile_report::BranchUnits;
use sample_model::Pair;

/// What was sampled of a program, and how many units its debugging information has.
#[derive(Clone, Copy, Debug)]
pub struct Samples<'s> {
    /// The distinct branches by source and then by target, each with how often it was taken.
    pub branches: &'s [Pair],
    /// The distinct sampled ranges, each with how often it stands.
    pub ranges: &'s [Pair],
    pub units: BranchUnits,
}
