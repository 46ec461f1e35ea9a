// What the program says of itself.

use crate::remedies::REMEDIES;
use crate::topics::{TOPICS, Topic};

/// What each command does, and how the program ends.
const HELP: &[u8] = b"\
pgo builds sample profiles for compilers.

usage:
  pgo counts PERF             each distinct branch of a branch text, with its
                              count
  pgo where [--base] BIN HEX  the place of an address of a binary, as a profile
                              names it
  pgo profile [--map=NAME] [--base] BIN PERF
                              the sample profile that a branch text gives of a
                              binary, then a report on it
  pgo build [--map=NAME] [--base] [--edges] [--scaled] BIN PERF CFG
                              the same, with the block counts of each function
                              of a block text repaired between them
  pgo check CFG OUT           whether repairs, by `pgo build` or by anyone else,
                              keep what they promise
  pgo make N bin|perf|cfg|sum
                              a file of a made-up program of N functions, for
                              tests; or what `pgo build` finds in all three
  pgo merge W FILE [W FILE]..
                              the sum of one to eight profiles, each so many
                              times as its weight W says
  pgo summary FILE            how hot the lines of a profile are
  pgo lift [--base] BIN CFG OUT
                              the profile that `pgo build` printed, with the
                              repaired counts of blocks on its lines
  pgo --help, pgo -h          this text
  pgo --help COMMAND          what a command reads and writes, and an example
  pgo --help KIND             what helps where a file is refused for this kind
  pgo --version               the version

A second program, `pgo-cold`, adds lines of count 0 to a profile, for what never
ran: the last step before clang (`pgo-cold --help`).

PERF is what `perf script -F ip,brstack` prints, in a file. BIN is a 64-bit ELF
file with DWARF 4 or 5, HEX an address in hexadecimal digits. CFG is a block
text, as `contrib/blocks BIN` prints it, OUT what `pgo build` printed. N is at
most 4096. FILE is a profile text, as `pgo profile` and `pgo build` print it, W
1 to 65535.

--base      discriminators are taken apart as clang packs them: give it for
            binaries of clang and rustc, and not for those of gcc
--map=NAME  addresses are moved by the load lines of the branch text, in which
            the binary has this name: position-independent programs and shared
            objects need it, and `perf script --show-mmap-events`
--edges     edges are weighed by the branches along them, and their weights told
--scaled    functions are repaired within a bound on augmentations, steps of the
            solver: the same cost, and a last line with their number

if you see:
  only lines with #      the profile is empty: `pgo-profile` tells why
  0x0 0x0 in all lines   no load line has the name of --map, whole: /srv/app/lua
  BadLine at 1           the text is packed, or the recording itself: unpack it,
                         or print it by `perf script -F ip,brstack`
  BadLine                print ip,brstack and no further fields; more by
                         `pgo --help BadLine`
  Compressed             `objcopy --decompress-debug-sections BIN PLAIN`
  NotElf                 the program comes first, then the text; unpack it, and
                         see that it is not empty
  usage                  options come in front, each once; NAME stands behind
                         `--map=` without a space; HEX is never decimal, and N
                         and W always are; `pgo --help COMMAND` says the rest
  no such file: 1        of the file words the first; /dev/stdin is the input,
                         and `-` is not

Messages count file words and lines from 1, and places in a binary from 0.

exit status:
  0  done, the whole output was written
  1  a check failed; the first line that fails is named
  2  the words spell no command
  3  there is no such file
  4  a file is refused; its first bad place is named
  5  a file could not be read
  6  the output could not be written
  7  memory was refused, or a file needs too much of it
";

/// What `--version` prints.
const VERSION: &[u8] = b"pgo 1.0.0\n";

/// The answer to words that ask for one, where they are the only ones.
// Why: `--help` and `--version` are `main`'s: the top call knows neither, and any other word beside
// them is `Usage`.
pub(crate) fn answer_to(words: &[Vec<u8>]) -> Option<&'static [u8]> {
    match words {
        [word] if word.as_slice() == b"--help".as_slice() => Some(HELP),
        [word] if word.as_slice() == b"-h".as_slice() => Some(HELP),
        [word] if word.as_slice() == b"--version".as_slice() => Some(VERSION),
        [first, word] if first.as_slice() == b"--help".as_slice() => {
            text_on(&TOPICS, word).or(text_on(&REMEDIES, word))
        }
        _ => None,
    }
}

/// What one of the topics says, if the word is its name.
fn text_on(topics: &[Topic], word: &[u8]) -> Option<&'static [u8]> {
    for topic in topics {
        if topic.word == word {
            return Some(topic.text);
        }
    }
    None
}
