// What the program says of each command.

/// What `--help` says of a word.
pub(crate) struct Topic {
    pub(crate) word: &'static [u8],
    pub(crate) text: &'static [u8],
}

/// The commands.
pub(crate) const TOPICS: [Topic; 9] = [
    Topic {
        word: b"counts",
        text: b"\
pgo counts PERF

Reads a branch text, as `perf script -F ip,brstack` prints it, from a file or a
pipe (/dev/stdin). Writes each distinct branch with its count, by source and
then by target, and last the number of all branches.

example:
  pgo counts demo/words.txt
",
    },
    Topic {
        word: b"where",
        text: b"\
pgo where [--base] BIN HEX

Reads a program with its debugging information. Writes the place of an address,
as a profile names it: the function, the calls inlined there, and the line,
counted from where the function starts. `outside` says that no function holds
the address, `nameless` that a profile cannot hold the name of the function or
of an inlined call, `noline` that it stands for no line.

HEX is an address of the file, as nm and objdump print it, and not one at which
a position-independent program ran: hexadecimal digits with 0x or without, never
decimal.

--base  for programs of clang and rustc: places as profiles have them

example:
  pgo where --base demo/words 401330
",
    },
    Topic {
        word: b"profile",
        text: b"\
pgo profile [--map=NAME] [--base] BIN PERF

Reads a program with its debugging information, and a branch text, which may be
a pipe (/dev/stdin). Writes the sample profile of the program, which clang takes
by -fprofile-sample-use=, and then a report: lines that begin with #, which
compilers pass over. Where all lines do, the profile is empty, with status 0;
`pgo-profile` makes a profile and tells why it is empty. `pgo-cold` behind it is
the last step before clang.

--base      for all programs of clang and rustc, and not for those of gcc
--map=NAME  for position-independent programs and shared objects (`readelf -h`
            says DYN): NAME is what stands behind r-xp in the load line of the
            program, with all its folders; `perf script --show-mmap-events`
            prints load lines

example:
  pgo profile --base demo/words demo/words.txt
",
    },
    Topic {
        word: b"build",
        text: b"\
pgo build [--map=NAME] [--base] [--edges] [--scaled] BIN PERF CFG

Reads what `pgo profile` reads, and a block text: the functions of the program
as blocks and edges, which `pgo-blocks BIN` prints. Writes the profile; then for
each function of the block text counts that conserve and are least away from the
samples, with prices that show it, or a cut that shows that there are none; and
then the report. `pgo-draw` makes a picture of a function. (In a clone these are
contrib/blocks and contrib/draw.)

--base      as for `pgo profile`
--map=NAME  as for `pgo profile`
--edges     edges are weighed, too, by the branches along them and the ranges
            through them, and their weights are told
--scaled    functions are repaired within a bound on augmentations, and a last
            line tells how many there were; the cost of repairs is the same

example:
  pgo build --base --edges demo/words demo/words.txt demo/words.blocks
",
    },
    Topic {
        word: b"check",
        text: b"\
pgo check CFG OUT

Reads a block text, and a text with a repair of each of its functions in order:
what `pgo build` printed, as it is, or repairs that someone else made. Writes
`checked N`, where each of the N functions has counts that conserve within
bounds and cost least, or a cut that shows that there are none, for the weights
that stand in the text. Else it names the first line that does not keep what it
promises. Nothing is believed of who made the text.

Where weights come from is not judged. A text of another block text is refused
(WrongFunction, WrongBlock, WrongEdge, Missing, Extra).

example:
  pgo build --base demo/words demo/words.txt demo/words.blocks >words.built
  pgo check demo/words.blocks words.built
",
    },
    Topic {
        word: b"make",
        text: b"\
pgo make N bin|perf|cfg|sum

Writes a file of a program that is made up, for tests and measurements: its
binary, its branch text or its block text. The program has N functions of 64
bytes, each with an inlined call. N is a decimal number of at most 4096. No file
is read.

With `sum` all three are made in memory, and what `pgo build` finds in them is
written as one line: how many functions and branches there are, the sum of the
functions' totals, what all repairs cost, and how many of them are cuts.

examples:
  pgo make 64 bin >case
  pgo make 64 sum
",
    },
    Topic {
        word: b"merge",
        text: b"\
pgo merge W FILE [W FILE]..

Reads one to eight profile texts, as `pgo profile` and `pgo build` print them or
`llvm-profdata merge --sample --text` does, each behind its weight W, a decimal
number from 1 to 65535. Writes one profile: each head, count and target is the
sum over the files of weight times number, and totals are sums of counts. Lines
that begin with # are passed over, and totals that are read are not judged. The
order of the files makes no difference, so a merge of merges is the merge of all
their files.

Nothing is cut off: a number that would pass 2^64 - 1 together with those of the
files before is refused at its line (CountTooLarge). Totals stand still there.

example:
  pgo profile --base demo/words demo/words.txt >words.prof
  pgo merge 1 words.prof 2 words.prof
",
    },
    Topic {
        word: b"summary",
        text: b"\
pgo summary FILE

Reads a profile text. Writes how many functions a profile of its numbers has,
how many lines have a count above 0, their sum and the greatest; and then for
each cutoff of LLVM, in millionths, the least count of the hottest lines that
make up so much of the sum, and how many lines have at least this count.

example:
  pgo profile --base demo/words demo/words.txt >words.prof
  pgo summary words.prof
",
    },
    Topic {
        word: b"lift",
        text: b"\
pgo lift [--base] BIN CFG OUT

Reads a program with its debugging information, a block text, and what `pgo
build` printed of both. Where `pgo check` would name a line, so does this, and
writes nothing. Else it writes the profile with the repaired counts of blocks on
its lines: each line of which a block holds code gets the largest count of the
blocks that do, also where the profile had no such line; blocks of a function
with a cut count for none. The other lines, the calls and the entries stay, and
totals are summed anew.

Whether OUT was made of this program is not judged.

Do not give this profile to clang. It makes programs slower than the plain one
does: a program of sorts took 37% more branches than without any profile, since
blocks before and behind a loop stand in the loop's lines. For clang take what
`pgo profile` writes, with `pgo-cold` behind it.

--base  where it was given to `pgo build`: for programs of clang and rustc

example:
  pgo build --base demo/words demo/words.txt demo/words.blocks >words.built
  pgo lift --base demo/words demo/words.blocks words.built
",
    },
];
