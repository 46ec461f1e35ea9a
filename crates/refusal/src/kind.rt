ghost use Rattle.std.specs.Prelude.{◌≡◌};
ghost use Rattle.refusal.specs.Kind.{word_of};

/// Why an input is refused: one name for each cause, the same in the program's messages.
///
/// docs/FORMATS.md says of each file that is read which of them it can have, and where each stands.
// Why: All kinds stand here from the start, since a new one has all crates proved again, and since
// callers match on them: bad lines have four. A kind has no number, and the order of variants means
// nothing.
#[derive(Clone, Copy, Debug, PartialEq, Eq)]
pub enum Kind {
    // The file and its headers.
    /// The file is shorter than an ELF64 file header, or does not begin with `\x7fELF`.
    NotElf,
    /// An ELF file, but not a 64-bit little-endian one.
    NotElf64Little,
    /// Neither an executable nor a shared object: `e_type` is another than `ET_EXEC` and `ET_DYN`.
    BadType,
    /// A field of the file header has a value that is not read, or leads past the end of the file.
    BadHeader,
    /// A section passes the end of the file.
    SectionPastEnd,
    /// A section's name does not begin in the section of names, or no NUL ends it there.
    NameBad,
    /// A section that is read has the flag `SHF_COMPRESSED`.
    Compressed,
    // Bytes and sizes.
    /// The bytes end before the last one of a value.
    Short,
    /// A LEB128 number is longer than ten bytes, or does not fit 64 bits.
    LebTooLong,
    /// No NUL ends a text.
    NoNul,
    /// The file has more bytes than are read; the place is that limit.
    FileTooLarge,
    // Forms, abbreviations and units.
    /// A form that is not read.
    BadForm,
    /// `DW_FORM_indirect` leads to `DW_FORM_indirect`.
    IndirectTwice,
    /// An abbreviation says neither `DW_CHILDREN_no` nor `DW_CHILDREN_yes`.
    BadChildren,
    /// Two abbreviations of one table have the same code.
    CodeTwice,
    /// A table has more abbreviations than are read.
    TooManyAbbrevs,
    /// A unit's length is a reserved value, or passes the end of the section.
    BadUnitLength,
    /// A version that is not read.
    BadVersion,
    /// Addresses have another size than 8 bytes.
    BadAddressSize,
    /// An entry's code is not in its unit's table of abbreviations.
    UnknownAbbrev,
    /// An entry stands deeper than is read.
    TooDeep,
    /// There are more debugging information entries than are read, or a sample has more branches.
    TooManyEntries,
    // Sections, texts and ranges.
    /// An offset or an indexed slot passes the end of its section.
    PastSection,
    /// The section that a value leads to is not there.
    NoSection,
    /// A value goes by an index, and the unit has no base to count from.
    NoBase,
    /// An attribute's value is of a class that the attribute cannot have.
    BadClass,
    /// An entry of a range list has a code that is none.
    BadRangeEntry,
    /// There are more ranges than are read.
    TooManyRanges,
    // Line programs.
    /// The `line_range` of a line program is 0.
    BadLineRange,
    /// The `opcode_base` of a line program is 0.
    BadOpcodeBase,
    /// A line program has several operations an instruction (VLIW).
    ManyOperations,
    /// An extended opcode has a length that does not fit it.
    BadExtended,
    /// A line number falls below 0, or passes 2^32 - 1.
    LineOverflow,
    /// A sequence of a line program is not ended.
    NoEnd,
    /// A line program makes more rows than are read.
    TooManyRows,
    // References and inlined calls.
    /// A reference leads to no entry.
    BadReference,
    /// The way along abstract origins and specifications is longer than is followed.
    OriginTooLong,
    /// More inlined calls stand in one another than are read.
    InlineTooDeep,
    // Branch texts.
    /// A line has not the form of its text.
    BadLine,
    /// A line has more bytes than are read.
    LineTooLong,
    /// The text has more branches than are counted.
    TooManyBranches,
    // Block texts.
    /// A block's number is not the next one.
    BlockOrder,
    /// A block holds no address.
    BlockEmpty,
    /// A block shares an address with an earlier one of its function.
    BlockOverlap,
    /// A function has no block.
    NoBlocks,
    /// An edge begins or ends at a block that its function has not.
    EdgeEnd,
    /// An edge stands twice.
    EdgeTwice,
    /// The text ends before a function's `end`.
    NoEndLine,
    /// A function has more blocks than are read.
    TooManyBlocks,
    /// A function has more edges than are read.
    TooManyEdges,
    // Repair texts.
    /// A function is not the block text's next one.
    WrongFunction,
    /// A block is not its function's next one.
    WrongBlock,
    /// An edge is not its function's next one.
    WrongEdge,
    /// A block, an edge or a function of the block text is not told of.
    Missing,
    /// More is told of than the block text has.
    Extra,
    // Bounds and profile texts.
    /// A lower bound is above its upper bound.
    BadBound,
    /// No line that is open encloses one that is set deeper.
    BadIndent,
    /// A function, a location or a target of a profile text stands twice.
    KeyTwice,
    /// Counts that are added up pass 2^64 - 1.
    CountTooLarge,
}

impl Kind {
    /// The kind's name, as a refusal prints it.
    pub fn word(self) -> &'static [u8]
        ensures { result.now ≡ word_of self }
    {
        match self {
            Kind::NotElf => b"NotElf",
            Kind::NotElf64Little => b"NotElf64Little",
            Kind::BadType => b"BadType",
            Kind::BadHeader => b"BadHeader",
            Kind::SectionPastEnd => b"SectionPastEnd",
            Kind::NameBad => b"NameBad",
            Kind::Compressed => b"Compressed",
            Kind::Short => b"Short",
            Kind::LebTooLong => b"LebTooLong",
            Kind::NoNul => b"NoNul",
            Kind::FileTooLarge => b"FileTooLarge",
            Kind::BadForm => b"BadForm",
            Kind::IndirectTwice => b"IndirectTwice",
            Kind::BadChildren => b"BadChildren",
            Kind::CodeTwice => b"CodeTwice",
            Kind::TooManyAbbrevs => b"TooManyAbbrevs",
            Kind::BadUnitLength => b"BadUnitLength",
            Kind::BadVersion => b"BadVersion",
            Kind::BadAddressSize => b"BadAddressSize",
            Kind::UnknownAbbrev => b"UnknownAbbrev",
            Kind::TooDeep => b"TooDeep",
            Kind::TooManyEntries => b"TooManyEntries",
            Kind::PastSection => b"PastSection",
            Kind::NoSection => b"NoSection",
            Kind::NoBase => b"NoBase",
            Kind::BadClass => b"BadClass",
            Kind::BadRangeEntry => b"BadRangeEntry",
            Kind::TooManyRanges => b"TooManyRanges",
            Kind::BadLineRange => b"BadLineRange",
            Kind::BadOpcodeBase => b"BadOpcodeBase",
            Kind::ManyOperations => b"ManyOperations",
            Kind::BadExtended => b"BadExtended",
            Kind::LineOverflow => b"LineOverflow",
            Kind::NoEnd => b"NoEnd",
            Kind::TooManyRows => b"TooManyRows",
            Kind::BadReference => b"BadReference",
            Kind::OriginTooLong => b"OriginTooLong",
            Kind::InlineTooDeep => b"InlineTooDeep",
            Kind::BadLine => b"BadLine",
            Kind::LineTooLong => b"LineTooLong",
            Kind::TooManyBranches => b"TooManyBranches",
            Kind::BlockOrder => b"BlockOrder",
            Kind::BlockEmpty => b"BlockEmpty",
            Kind::BlockOverlap => b"BlockOverlap",
            Kind::NoBlocks => b"NoBlocks",
            Kind::EdgeEnd => b"EdgeEnd",
            Kind::EdgeTwice => b"EdgeTwice",
            Kind::NoEndLine => b"NoEndLine",
            Kind::TooManyBlocks => b"TooManyBlocks",
            Kind::TooManyEdges => b"TooManyEdges",
            Kind::WrongFunction => b"WrongFunction",
            Kind::WrongBlock => b"WrongBlock",
            Kind::WrongEdge => b"WrongEdge",
            Kind::Missing => b"Missing",
            Kind::Extra => b"Extra",
            Kind::BadBound => b"BadBound",
            Kind::BadIndent => b"BadIndent",
            Kind::KeyTwice => b"KeyTwice",
            Kind::CountTooLarge => b"CountTooLarge",
        }
    }
}
