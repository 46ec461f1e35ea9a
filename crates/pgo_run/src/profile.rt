// `profile`: what a branch text says of a binary, as a profile for compilers, and the report on it.
ghost use Rattle.std.specs.Prelude.{ℕ, Bool, List};

use binary_places::Binary;
use branch_stacks::Counts;
use profile_maker::make;
use program_edge::FromSamples;
use refusal::NoMemory;
use std::alloc::Global;

/// The command `profile`.
pub(crate) struct Profile;

impl FromSamples for Profile {
    ghost use Rattle.std.specs.Prelude.{refl};
    ghost use Rattle.command_model.specs.Command.{profile};
    ghost use Rattle.output_model.specs.Output.{output_text};

    ghost command = { profile };

    ghost text = { output_text };

    fn make(alloc: Global, binary: Binary<'_>, counts: Counts) -> Result<Vec<u8>, NoMemory> {
        make(alloc, binary, counts)
    }

    ghost asks = { λ options binary perf. refl };

    ghost passes = { λ options binary perf contents. refl };

    ghost writes = { λ options binary perf bytes lines out is. is };
}
