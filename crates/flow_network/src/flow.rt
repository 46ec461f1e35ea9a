// What is said of a network.
ghost use Rattle.std.specs.Prelude.{◌≡◌, pos, slice_index_or};
ghost use Rattle.flow_network.specs.Flow.{holds, price_of};

use item_lists::Items;

/// How often each block ran and each edge was taken, in the order of the blocks and the edges.
#[derive(Debug, Drop)]
pub struct Flow {
    pub blocks: Items<u64>,
    pub edges: Items<u64>,
}

/// The prices of the sides (potentials): where each block is entered, and where it is left. The
/// root's is 0.
#[derive(Debug, Drop)]
pub struct Prices {
    pub ins: Items<i64>,
    pub outs: Items<i64>,
}

impl Prices {
    /// The price of a side.
    pub fn at(&self, side: u32) -> i64
        ensures { result ≡ price_of self.now side }
    {
        if side == 0 {
            0
        } else if side % 2 == 1 {
            price_at(self.ins.as_slice(), side / 2)
        } else {
            price_at(self.outs.as_slice(), side / 2 - 1)
        }
    }
}

/// A set of sides: whether it holds the root, and for each block where it is entered and left.
#[derive(Debug, Drop)]
pub struct Nodes {
    pub root: bool,
    pub ins: Items<bool>,
    pub outs: Items<bool>,
}

impl Nodes {
    /// Whether a side is in the set.
    pub fn contains(&self, side: u32) -> bool
        ensures { result ≡ holds self.now side }
    {
        if side == 0 {
            self.root
        } else if side % 2 == 1 {
            member_at(self.ins.as_slice(), side / 2, self.root)
        } else {
            member_at(self.outs.as_slice(), side / 2 - 1, self.root)
        }
    }
}

/// What a network comes to: counts with prices, or a cut.
#[derive(Debug, Drop)]
pub enum Solved {
    /// Counts of least cost that conserve within bounds, and prices that fit them.
    Flow(Flow, Prices),
    /// A cut: no counts conserve within bounds.
    Cut(Nodes),
}

/// The price of a block's side, 0 behind the last block.
fn price_at(prices: &[i64], block: u32) -> i64
    ensures { result ≡ slice_index_or prices.now block (pos 0) }
{
    match prices.get(block as usize) {
        Some(price) => *price,
        None => 0,
    }
}

/// Whether a block's side is in the set; behind the last block the sides stand with the root.
fn member_at(members: &[bool], block: u32, root: bool) -> bool
    ensures { result ≡ slice_index_or members.now block root }
{
    match members.get(block as usize) {
        Some(member) => *member,
        None => root,
    }
}
