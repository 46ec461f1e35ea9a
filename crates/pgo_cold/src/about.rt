// What the program says of itself.

/// What the program does, and how it ends.
const HELP: &[u8] = b"\
pgo-cold tells a compiler which lines of a profile never ran.

usage:
  pgo-cold [--base] BIN PROFILE
                      the profile, with a line of count 0 for each place of the
                      binary that has none, in the functions that the profile
                      has; its lines of count 0 stay, comments do not
  pgo-cold profile [--map=NAME] [--base] BIN PERF
                      the same of what `pgo profile` prints for these words,
                      with its report behind; BIN is read once
  pgo-cold --help, pgo-cold -h
                      this text
  pgo-cold --version  the version

BIN is a 64-bit ELF file with DWARF 4 or 5: the program that was sampled.
PROFILE is a profile text, as `pgo profile`, `pgo build`, `pgo merge` and
`pgo lift` print it. PERF and --map are those of `pgo profile`. Two words are
always BIN and PROFILE, also where BIN is named profile.

Without such lines clang guesses how often code ran that no sample tells of;
with them it lays it out as cold. It is the last step before the compiler,
behind any merge: a line of count 0 adds nothing to a sum. For a program with
libraries it is run once for each binary, on what the run before printed.

--base  discriminators are taken apart as clang packs them: give it where it was
        given to `pgo profile`, or each line with a discriminator has another
        name

The exit status and the lines on the error output are those of `pgo`.
";

/// What `--version` prints.
const VERSION: &[u8] = b"pgo-cold 1.0.0\n";

/// The answer to words that ask for one, where they are the only ones.
pub(crate) fn answer_to(words: &[Vec<u8>]) -> Option<&'static [u8]> {
    match words {
        [word] if word.as_slice() == b"--help".as_slice() => Some(HELP),
        [word] if word.as_slice() == b"-h".as_slice() => Some(HELP),
        [word] if word.as_slice() == b"--version".as_slice() => Some(VERSION),
        _ => None,
    }
}
