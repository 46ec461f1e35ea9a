// Blocks of a good text are apart, and so are its edges.
ghost use Rattle.clause_uses.specs.Apart.{SharedEdgesAreBad, SharedPlacesAreBad};

use sound_text::good_texts_are_sound;

/// A block text two of whose blocks hold one address, or two of whose edges lead from one block to
/// another, has a bad line.
pub fn shared_places_are_bad()
    ensures places { SharedPlacesAreBad }
    ensures edges { SharedEdgesAreBad }
{
    good_texts_are_sound();
}
