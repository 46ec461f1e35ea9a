// The search from one side.
ghost use Rattle.std.specs.Prelude.{◌≡◌, ◌*◌, ◌<◌, ◌≤◌, ◌<ℤ◌, ◌≤ℤ◌, ◌+◌, pos, ℕ, length, replicate, None};
ghost use Rattle.std.specs.Prelude.{IfNone, IfOk, IfSome, OnOk};
ghost use Rattle.path_search.specs.Ground.{IsGround, price_at};
ghost use Rattle.path_search.specs.Search.{distance_at, settled_count};
ghost use Rattle.path_search.specs.Task.{task_on};
ghost use Rattle.path_search.specs.Found.{HasClosed, HasComeTo, HasEnded, HasReached, IsUnderWay};

use crate::around::look_around;
use crate::ground::Ground;
use crate::next::next_open;
use crate::settle::{begin, settle};
use reached_sides::{Frontier, Marks};
use refusal::NoMemory;
use std::alloc::Global;

/// A search: what it knows of the sides, those that are still open, and the settled ones in their
/// order. It is kept from one start to the next.
#[derive(Debug, Drop)]
pub struct Search {
    pub marks: Marks,
    pub frontier: Frontier,
    pub order: Vec<u32>,
}

impl Search {
    /// A search of so many sides, which has reached none.
    pub fn new(alloc: Global, sides: usize) -> Result<Search, NoMemory>
        ensures { IfOk result (λ search. search.marks ≡ replicate sides None) }
    {
        let marks = Marks::new(alloc, sides)?;
        let frontier = Frontier::new(alloc)?;
        Ok(Search {
            marks,
            frontier,
            order: Vec::with_capacity(alloc, sides)?,
        })
    }

    /// The nearest side that lacks something, from a source, over the steps that counts leave;
    /// `None` exactly where no such side can be reached.
    ///
    /// Afterwards the marks tell the distances of the sides that the search has reached, from 0 at
    /// the source on, and, where a side is found, ways back from them to the source. The settled
    /// ones are listed in their order.
    // Why: A search ends at the first node that lacks counts, which it does not settle: real
    // repairs are local.
    pub fn find(&mut self, ground: Ground<'_>, source: u32) -> Result<Option<u32>, NoMemory>
        requires ground { IsGround ground.net.now ground.counts.now ground.prices.now }
        requires told { length ground.excess.now ≡ length ground.prices.now }
        requires marked { length self.old.marks ≡ length ground.prices.now }
        requires source { source ≤ 2 * length ground.net.now.blocks }
        ensures ended { IfOk result (HasEnded (task_on ground.entry source) self.new) }
        ensures begins { OnOk result (distance_at self.new.marks source ≡ 0) }
    {
        begin(&mut self.marks, &mut self.frontier, source);
        self.order.clear();
        if ground.excess[source as usize] < 0 {
            return Ok(Some(source));
        }
        self.walk(ground, source, source, 0)
    }

    /// Goes on from a side that the search has come to, and that lacks nothing any more, to the
    /// next nearest side that does.
    pub fn go_on(
        &mut self,
        ground: Ground<'_>,
        source: u32,
        side: u32,
    ) -> Result<Option<u32>, NoMemory>
        requires ground { IsGround ground.net.now ground.counts.now ground.prices.now }
        requires told { length ground.excess.now ≡ length ground.prices.now }
        requires come { HasComeTo (task_on ground source) self.old side
            (distance_at self.old.marks side) }
        requires enough { pos 0 ≤ℤ price_at ground.excess.now side }
        ensures ended { IfOk result (HasEnded (task_on ground.entry source) self.new) }
        ensures nearer { OnOk result
            ((other : ℕ) → distance_at self.new.marks other ≤ distance_at self.old.marks other) }
    {
        let distance = self.distance_to(side);
        self.walk(ground, source, side, distance)
    }

    /// How far a side is; what has no mark is beyond all others.
    pub fn distance_to(&self, side: u32) -> u64
        requires { side < length self.now.marks }
        ensures { result ≡ distance_at self.now.marks side }
    {
        match self.marks.get(side) {
            Some(mark) => mark.distance,
            None => u64::MAX,
        }
    }

    /// Takes the nearest open side from the frontier, with its distance; `None` exactly where no
    /// side is open.
    fn come_to_next(&mut self, ground: Ground<'_>, source: u32) -> Option<(u32, u64)>
        requires ground { IsGround ground.net.now ground.counts.now ground.prices.now }
        requires under_way { IsUnderWay (task_on ground source) self.old }
        ensures marks { self.new.marks ≡ self.old.marks }
        ensures order { self.new.order ≡ self.old.order }
        ensures come { IfSome result (λ next.
            HasComeTo (task_on ground.entry source) self.new next.0 next.1) }
        ensures reached { IfSome result (λ next. price_at ground.entry.excess.now next.0 <ℤ pos 0
            → HasReached (task_on ground.entry source) self.new.marks next.0) }
        ensures closed { IfNone result
            (HasClosed (task_on ground.entry source) self.new.marks) }
    {
        let next = next_open(&self.marks, &mut self.frontier)?;
        Some(next)
    }

    /// Settles a side that the search has come to, and then the nearest open side, until one lacks
    /// something.
    fn walk(
        &mut self,
        ground: Ground<'_>,
        source: u32,
        first: u32,
        distance: u64,
    ) -> Result<Option<u32>, NoMemory>
        requires ground { IsGround ground.net.now ground.counts.now ground.prices.now }
        requires told { length ground.excess.now ≡ length ground.prices.now }
        requires come { HasComeTo (task_on ground source) self.old first distance }
        requires enough { pos 0 ≤ℤ price_at ground.excess.now first }
        ensures ended { IfOk result (HasEnded (task_on ground.entry source) self.new) }
        ensures nearer { OnOk result
            ((other : ℕ) → distance_at self.new.marks other ≤ distance_at self.old.marks other) }
    {
        let mut next = (first, distance);
        loop {
            self.pass(ground, source, next.0, next.1)?;
            match self.come_to_next(ground, source) {
                Some((side, _)) if ground.excess[side as usize] < 0 => return Ok(Some(side)),
                Some(come_to) => next = come_to,
                None => return Ok(None),
            }
        }
    }

    /// Settles the nearest open side, and looks over the arcs that meet it. The source stands in
    /// the contract alone.
    fn pass(
        &mut self,
        ground: Ground<'_>,
        source: u32,
        side: u32,
        distance: u64,
    ) -> Result<(), NoMemory>
        requires ground { IsGround ground.net.now ground.counts.now ground.prices.now }
        requires come { HasComeTo (task_on ground source) self.old side distance }
        requires enough { pos 0 ≤ℤ price_at ground.excess.now side }
        ensures under_way { OnOk result (IsUnderWay (task_on ground.entry source) self.new) }
        ensures nearer { OnOk result
            ((other : ℕ) → distance_at self.new.marks other ≤ distance_at self.old.marks other) }
        ensures more { OnOk result
            (settled_count self.new.marks ≡ settled_count self.old.marks + 1) }
    {
        settle(&mut self.marks, side, self.order.len() as u32);
        self.order.push(side)?;
        look_around(
            &mut self.marks,
            &mut self.frontier,
            ground.net,
            ground.counts,
            ground.prices,
            side,
            distance,
        )?;
        Ok(())
    }
}
