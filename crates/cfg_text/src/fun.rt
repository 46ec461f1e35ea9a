use block_model::{Block, Edge};
use item_lists::Items;

/// A function: its blocks, numbered from 0, and the edges between them. Block 0 is the entry.
///
/// As `read` gives it, it has 1 to 65,536 blocks, none of them empty and no two with a common
/// address, and up to 262,144 edges, no two of them from one block to another: the law
/// `good_texts_are_sound` of `sound_text`.
#[derive(Debug, Drop)]
pub struct Fun<'a> {
    /// The bytes of the name's field.
    pub name: &'a [u8],
    pub blocks: Items<Block>,
    pub edges: Items<Edge>,
}
