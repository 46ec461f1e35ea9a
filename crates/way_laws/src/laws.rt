// What lines can tell of a binary.
ghost use Rattle.way_laws.specs.Rows.{RowsHaveDiscriminators};
ghost use Rattle.way_laws.specs.Told.{ProfilesCanBeTold};

/// Each row of a line program has a discriminator of 32 bits.
pub fn rows_have_discriminators()
    ensures { RowsHaveDiscriminators }
{}

/// The profile of a binary and a good branch text can be told by lines: all its names are names,
/// all its numbers have the bits in which they are read, and no key is more than 256 deep.
pub fn profiles_can_be_told()
    ensures { ProfilesCanBeTold }
{}
