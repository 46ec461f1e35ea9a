// The profile of samples, with lines of count 0.
use binary_places::Binary;
use branch_stacks::Counts;
use cold_maker::cold_profile;
use program_edge::FromSamples;
use refusal::NoMemory;
use std::alloc::Global;

/// What `pgo-cold profile` makes.
pub(crate) struct Sampled;

impl FromSamples for Sampled {
    ghost use Rattle.std.specs.Prelude.{refl};
    ghost use Rattle.command_model.specs.Command.{cold_profile};
    ghost use Rattle.output_model.specs.Cold.{sampled_text};

    ghost command = { cold_profile };

    ghost text = { sampled_text };

    fn make(alloc: Global, binary: Binary<'_>, counts: Counts) -> Result<Vec<u8>, NoMemory> {
        cold_profile(alloc, binary, counts)
    }

    ghost asks = { λ options binary perf. refl };

    ghost passes = { λ options binary perf contents. refl };

    ghost writes = { λ options binary perf bytes lines out is. is };
}
