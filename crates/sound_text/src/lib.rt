//! What the functions of a block text without a bad line keep: all that their networks rest on, and
//! that blocks and edges are apart.
#![tactic(auto)]

mod laws;

pub use laws::good_texts_are_sound;
