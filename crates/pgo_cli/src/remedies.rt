// What helps for each kind of refusal. Made by checks/manual from docs/FORMATS.md.

use crate::topics::Topic;

/// The kinds.
pub(crate) const REMEDIES: [Topic; 59] = [
    Topic {
        word: b"NotElf",
        text: b"\
NotElf: no ELF file.
What helps: the program first, then the text; in place of a script the program
that it starts, of a static library the one that it was linked into; unpack a
packed file, and see that it is not empty.
",
    },
    Topic {
        word: b"NotElf64Little",
        text: b"\
NotElf64Little: an ELF file of 32 bits, or big-endian.
What helps: a program of 64 bits, little-endian.
",
    },
    Topic {
        word: b"BadType",
        text: b"\
BadType: an object file, a `.dwo` file or a core dump.
What helps: the linked program or shared object.
",
    },
    Topic {
        word: b"BadHeader",
        text: b"\
BadHeader: the headers lead past the end of the file, or say what no linker
writes.
What helps: copy the file again: it is cut off or damaged.
",
    },
    Topic {
        word: b"SectionPastEnd",
        text: b"\
SectionPastEnd: a section passes the end of the file.
What helps: copy the file again: it is cut off.
",
    },
    Topic {
        word: b"NameBad",
        text: b"\
NameBad: a section has no name that ends.
What helps: copy or link the file again: it is damaged.
",
    },
    Topic {
        word: b"Compressed",
        text: b"\
Compressed: compressed sections: `-gz`, Debian's debug packages, Go.
What helps: `objcopy --decompress-debug-sections BIN PLAIN`, and PLAIN in place
of BIN.
",
    },
    Topic {
        word: b"Short",
        text: b"\
Short: debugging information ends inside a value.
What helps: build or copy the file again, with all its debug sections.
",
    },
    Topic {
        word: b"LebTooLong",
        text: b"\
LebTooLong: debugging information has a number of more than ten bytes.
What helps: build or copy the file again, with all its debug sections.
",
    },
    Topic {
        word: b"NoNul",
        text: b"\
NoNul: debugging information has a text without an end.
What helps: build or copy the file again, with all its debug sections.
",
    },
    Topic {
        word: b"BadForm",
        text: b"\
BadForm: a value in a form that is not read: of a file that `dwz` made to share
with others, or of GNU's split files.
What helps: the file as it was before `dwz`, built without `-gsplit-dwarf`.
",
    },
    Topic {
        word: b"IndirectTwice",
        text: b"\
IndirectTwice: a form that leads to a form that leads on.
What helps: build or copy the file again, with all its debug sections.
",
    },
    Topic {
        word: b"BadChildren",
        text: b"\
BadChildren: an abbreviation that says neither yes nor no of children.
What helps: build or copy the file again, with all its debug sections.
",
    },
    Topic {
        word: b"CodeTwice",
        text: b"\
CodeTwice: two abbreviations of one code.
What helps: build or copy the file again, with all its debug sections.
",
    },
    Topic {
        word: b"TooManyAbbrevs",
        text: b"\
TooManyAbbrevs: more than 2^20 abbreviations in a table.
What helps: build with less debugging information (`-gline-tables-only`).
",
    },
    Topic {
        word: b"BadUnitLength",
        text: b"\
BadUnitLength: a unit or a line program that passes the end of its section.
What helps: build or copy the file again, with all its debug sections.
",
    },
    Topic {
        word: b"BadVersion",
        text: b"\
BadVersion: a unit or a line program of a version that is not read.
What helps: build with `-gdwarf-4` or `-gdwarf-5`.
",
    },
    Topic {
        word: b"BadAddressSize",
        text: b"\
BadAddressSize: addresses of another size than 8 bytes.
What helps: build all of it for 64 bits (no `-mx32`).
",
    },
    Topic {
        word: b"UnknownAbbrev",
        text: b"\
UnknownAbbrev: an entry whose abbreviation is not there.
What helps: build or copy the file again, with all its debug sections.
",
    },
    Topic {
        word: b"TooDeep",
        text: b"\
TooDeep: more than 1,024 entries of debugging information in one another; in a
profile text more than 256 spaces in front of a line.
What helps: build with less debugging information (`-gline-tables-only`); a
profile text as the tool printed it.
",
    },
    Topic {
        word: b"TooManyEntries",
        text: b"\
TooManyEntries: more than 2^24 entries of debugging information; in a branch
text more than 1,024 branches in a line.
What helps: build with less debugging information (`-gline-tables-only`); the
text as perf printed it, its lines not joined.
",
    },
    Topic {
        word: b"PastSection",
        text: b"\
PastSection: a value that leads past the end of its section.
What helps: build or copy the file again, with all its debug sections.
",
    },
    Topic {
        word: b"NoSection",
        text: b"\
NoSection: a value that leads into a section that is not there.
What helps: build or copy the file again, with all its debug sections.
",
    },
    Topic {
        word: b"NoBase",
        text: b"\
NoBase: a value by an index, in a unit that does not say where the index begins.
What helps: build or copy the file again, with all its debug sections, without
`-gsplit-dwarf`.
",
    },
    Topic {
        word: b"BadClass",
        text: b"\
BadClass: a value of a class that its attribute cannot have.
What helps: build or copy the file again, with all its debug sections.
",
    },
    Topic {
        word: b"BadRangeEntry",
        text: b"\
BadRangeEntry: an entry of a range list that is none.
What helps: build or copy the file again, with all its debug sections.
",
    },
    Topic {
        word: b"TooManyRanges",
        text: b"\
TooManyRanges: more than 65,536 ranges in a list, or 2^26 in the file.
What helps: build with less debugging information (`-gline-tables-only`).
",
    },
    Topic {
        word: b"BadReference",
        text: b"\
BadReference: a reference to no entry.
What helps: build or copy the file again, with all its debug sections.
",
    },
    Topic {
        word: b"OriginTooLong",
        text: b"\
OriginTooLong: more than 16 references from an entry to its name.
What helps: nothing: no compiler is known to write such.
",
    },
    Topic {
        word: b"InlineTooDeep",
        text: b"\
InlineTooDeep: more than 255 inlined calls in one another.
What helps: build the file with less inlining.
",
    },
    Topic {
        word: b"BadLineRange",
        text: b"\
BadLineRange: a line program whose range of lines is 0.
What helps: build or copy the file again, with all its debug sections.
",
    },
    Topic {
        word: b"BadOpcodeBase",
        text: b"\
BadOpcodeBase: a line program whose first opcode is 0.
What helps: build or copy the file again, with all its debug sections.
",
    },
    Topic {
        word: b"ManyOperations",
        text: b"\
ManyOperations: a line program for machines with several operations an
instruction.
What helps: nothing.
",
    },
    Topic {
        word: b"BadExtended",
        text: b"\
BadExtended: a line program with an extended opcode of another length than it
says.
What helps: build or copy the file again, with all its debug sections.
",
    },
    Topic {
        word: b"LineOverflow",
        text: b"\
LineOverflow: a line program with a line below 0 or above 2^32 - 1.
What helps: build or copy the file again, with all its debug sections.
",
    },
    Topic {
        word: b"NoEnd",
        text: b"\
NoEnd: a line program whose last sequence has no end.
What helps: build or copy the file again, with all its debug sections.
",
    },
    Topic {
        word: b"TooManyRows",
        text: b"\
TooManyRows: more than 2^24 rows in a line program, or 2^26 in the file.
What helps: build with less debugging information (`-gline-tables-only`).
",
    },
    Topic {
        word: b"FileTooLarge",
        text: b"\
FileTooLarge: a binary above 2^30 bytes, a branch text above 2^40, a block text,
a repair text or a profile text above 2^28; the place is the limit.
What helps: of a binary take away what is not read (docs/USING.md, \"Time and
memory\"); split a branch text, and merge the profiles; `contrib/blocks` with
names, or `--fit`.
",
    },
    Topic {
        word: b"BadLine",
        text: b"\
BadLine: a line that has not the form of its text.
What helps: of a branch text by how the line looks; a block text as
`contrib/blocks` prints it; a repair text as `pgo build` printed it; a profile
text may be one of another tool, or in a binary form (docs/USING.md, \"Profiles
of other tools\").
The line looks like:
- `PERFILE2` and bytes, in line 1: the recording itself; `perf script -i
  perf.data -F ip,brstack` prints its text.
- bytes, in line 1: a packed text; unpack it.
- `words 4711 .. 4011c0 0x4011ce/..`, `cycles: 4011c0 ..`, `7 4011c0 ..`: fields
  in front: `comm`, `pid`, `tid`, `time`, `event`; `-F ip,brstack` and no other
  fields.
- `4011c0 main 0x4011ce/..`, `.. main+0x8e/main+0x20/..`,
  `..[unknown]/[unknown]/..`, `.. 0x4011ce(/srv/app/words)/..`: names or files
  beside addresses: `sym`, `brstacksym`, `dso`; the same.
- `.  0000:  03 00 ..`, `0xe8 [0x20]: event: 3`: a dump; `perf script` without
  `-D`.
- a good line with `^M` at its end: line ends of another system; `tr -d '\\r'`.
- the last one, a good line that ends within an entry: a text that was cut off;
  print it again, and see that perf ended well.
- a profile's line with spaces in a name, ` 3: sort<int*, main()::<lambda(int)>
  >:9`: functions of gcc without a linkage name, by llvm-profgen; leave them
  out, by the command of docs/USING.md, \"Profiles of other tools\".
",
    },
    Topic {
        word: b"LineTooLong",
        text: b"\
LineTooLong: a line of more than 65,536 bytes.
What helps: the text as perf printed it: its line feeds are lost, or it is no
text.
",
    },
    Topic {
        word: b"TooManyBranches",
        text: b"\
TooManyBranches: more than 2^32 - 1 branches.
What helps: split the text, and merge the profiles.
",
    },
    Topic {
        word: b"BlockOrder",
        text: b"\
BlockOrder: a block whose number is not the next one.
What helps: number the blocks of a function from 0 in their order.
",
    },
    Topic {
        word: b"BlockEmpty",
        text: b"\
BlockEmpty: a block that ends where it begins, or before.
What helps: its HI is the first address behind it.
",
    },
    Topic {
        word: b"BlockOverlap",
        text: b"\
BlockOverlap: a block that shares an address with an earlier one of its
function.
What helps: end the earlier one where this one begins.
",
    },
    Topic {
        word: b"NoBlocks",
        text: b"\
NoBlocks: a function without a block.
What helps: leave the function out.
",
    },
    Topic {
        word: b"EdgeEnd",
        text: b"\
EdgeEnd: an edge from or to a block that the function has not.
What helps: an edge counts by the numbers of its own function.
",
    },
    Topic {
        word: b"EdgeTwice",
        text: b"\
EdgeTwice: an edge that stands twice.
What helps: leave the second one out.
",
    },
    Topic {
        word: b"NoEndLine",
        text: b"\
NoEndLine: the text ends inside a function.
What helps: print the text again: it was cut off.
",
    },
    Topic {
        word: b"TooManyBlocks",
        text: b"\
TooManyBlocks: more than 65,536 blocks in a function.
What helps: leave the function out, as `contrib/blocks` does.
",
    },
    Topic {
        word: b"TooManyEdges",
        text: b"\
TooManyEdges: more than 262,144 edges in a function.
What helps: leave the function out, as `contrib/blocks` does.
",
    },
    Topic {
        word: b"BadBound",
        text: b"\
BadBound: a lower bound above the upper one.
What helps: lo is at most hi.
",
    },
    Topic {
        word: b"WrongFunction",
        text: b"\
WrongFunction: a function that is not the block text's next one.
What helps: the block text of which the repair was made.
",
    },
    Topic {
        word: b"WrongBlock",
        text: b"\
WrongBlock: a block that is not its function's next one.
What helps: the block text of which the repair was made.
",
    },
    Topic {
        word: b"WrongEdge",
        text: b"\
WrongEdge: an edge that is not its function's next one.
What helps: the block text of which the repair was made.
",
    },
    Topic {
        word: b"Missing",
        text: b"\
Missing: a function, block or edge of the block text is not told of.
What helps: what `pgo build` printed, in place of what `pgo profile` did, which
has no repairs (the usual cause); else the whole repair: it was cut off, or has
another block text.
",
    },
    Topic {
        word: b"Extra",
        text: b"\
Extra: more is told of than the block text has.
What helps: the block text of which the repair was made.
",
    },
    Topic {
        word: b"BadIndent",
        text: b"\
BadIndent: a line that is deeper by more than one space than the one that it
belongs to.
What helps: the text as the tool printed it.
",
    },
    Topic {
        word: b"KeyTwice",
        text: b"\
KeyTwice: a function, a line or a target that stands twice.
What helps: merge the profiles by a tool, and not by `cat`.
",
    },
    Topic {
        word: b"CountTooLarge",
        text: b"\
CountTooLarge: counts that add up to more than 2^64 - 1.
What helps: give the profiles smaller weights.
",
    },
];
