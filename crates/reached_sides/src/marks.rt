// Marks that carry their round.
ghost use Rattle.std.specs.Prelude.{◌≡◌, ◌<◌, length, map, replicate, slice_index_or, slice_set};
ghost use Rattle.std.specs.Prelude.{IfOk, None, Some};
ghost use Rattle.reached_sides.specs.Rounds.{mark_of};

use crate::mark::{Mark, Way};
use refusal::NoMemory;
use std::alloc::Global;
use std::marker::Model;

/// A mark, and the round in which it was made, as one record of 24 bytes: a search reads them all
/// the time. Of a side that is not settled the rank says nothing.
#[derive(Clone, Copy, Debug, PartialEq, Eq)]
struct Stamped {
    distance: u64,
    round: u32,
    arc: u32,
    rank: u32,
    settled: bool,
    way: Way,
}

impl Stamped {
    /// No mark of any round, as the first one is 1.
    fn none() -> Stamped
        ensures { result.round ≡ 0 }
    {
        Stamped {
            distance: 0,
            round: 0,
            arc: 0,
            rank: 0,
            settled: false,
            way: Way::Along,
        }
    }

    /// A mark that is made in a round.
    fn of(round: u32, mark: Mark) -> Stamped
        ensures round { result.round ≡ round }
        ensures mark { mark_of result ≡ mark }
    {
        let (settled, rank) = match mark.rank {
            Some(rank) => (true, rank),
            None => (false, 0),
        };
        Stamped {
            distance: mark.distance,
            round,
            arc: mark.arc,
            rank,
            settled,
            way: mark.way,
        }
    }

    /// The mark.
    fn mark(self) -> Mark
        ensures { result ≡ mark_of self }
    {
        Mark {
            distance: self.distance,
            arc: self.arc,
            way: self.way,
            rank: if self.settled { Some(self.rank) } else { None },
        }
    }
}

/// The marks of sides, of which each has one or none.
// Why: Marks carry their round in 24 bytes, so a new search costs nothing for nodes that it does
// not touch.
#[derive(Debug, Drop)]
pub struct Marks {
    sides: Vec<Stamped>,
    round: u32,
}

// Clauses see the mark of each side, if it has one.
impl Model for Marks {
    ghost use Rattle.std.specs.Prelude.{List, Option, map};
    ghost use Rattle.std.specs.List.{All};
    ghost use Rattle.reached_sides.specs.declared.mark.Mark.{Mark};
    ghost use Rattle.reached_sides.specs.Rounds.{IsUpTo, made_in};

    ghost Value = { List (Option Mark) };

    ghost view = { λ marks. map (made_in marks.round) marks.sides.items };

    ghost invariant = { λ marks. All (IsUpTo marks.round) marks.sides.items };
}

impl Marks {
    /// No marks, of so many sides.
    pub fn new(alloc: Global, sides: usize) -> Result<Marks, NoMemory>
        ensures { IfOk result (λ marks. marks ≡ replicate sides None) }
    {
        Ok(Marks {
            sides: vec![in alloc; Stamped::none(); sides]?,
            round: 1,
        })
    }

    /// Forgets all marks.
    pub fn clear(&mut self)
        ensures { self.new ≡ replicate (length self.old) None }
    {
        if self.round == u32::MAX {
            self.sides.fill(Stamped::none());
            self.round = 1;
        } else {
            self.round += 1;
        }
    }

    /// The mark of a side.
    pub fn get(&self, side: u32) -> Option<Mark>
        requires { side < length self.now }
        ensures { result ≡ slice_index_or self.now side None }
    {
        let stamped = self.sides[side as usize];
        if stamped.round != self.round {
            return None;
        }
        Some(stamped.mark())
    }

    /// Marks a side, in place of what it had.
    pub fn set(&mut self, side: u32, mark: Mark)
        requires { side < length self.old }
        ensures { self.new ≡ slice_set self.old side (Some mark) }
    {
        self.sides[side as usize] = Stamped::of(self.round, mark);
    }
}
