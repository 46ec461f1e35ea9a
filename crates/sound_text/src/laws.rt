// What a block text without a bad line says.
ghost use Rattle.sound_text.specs.Laws.{GoodTextsAreApart, GoodTextsAreSound};

/// Each function of a block text without a bad line has blocks, no more of them and of edges than
/// the limits allow, edges between its own blocks, and bounds below 2^44 in their order. No block
/// is empty, no two have a common address, and no two edges lead from one block to another.
pub fn good_texts_are_sound()
    ensures sound { GoodTextsAreSound }
    ensures apart { GoodTextsAreApart }
{}
