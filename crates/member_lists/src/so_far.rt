ghost use Rattle.std.specs.Prelude.{◌≡◌, ◌+◌, ◌<◌, ◌^◌, IfOk, OnOk, length};
ghost use Rattle.member_lists.specs.Frames.{all_members, behind_call, behind_function, behind_other, behind_unit, frame_above as above_told, nothing};

use crate::frame::{self, EntryFrame};
use crate::functions::FunctionMembers;
use chain_model::Member;
use refusal::NoMemory;
use std::alloc::Global;
use std::marker::Model;

/// The functions so far, each with the calls inlined into it, the number of pieces of the entries,
/// and the frames of the entries down to the last one of the unit, each with its entry's depth.
// Why: Frames that are as deep as the next one are dropped, and so the lists agree with the
// definition on any depths.
#[derive(Debug, Drop)]
pub struct SoFar {
    functions: FunctionMembers,
    pieces: u64,
    frames: Vec<(u32, EntryFrame)>,
}

// Clauses see the frames from the innermost on.
impl Model for SoFar {
    ghost use Rattle.chain_model.specs.declared.member.Member.{Member};
    ghost use Rattle.std.specs.Prelude.{reverse};
    ghost use Rattle.member_lists.specs.Frames.{SoFar};

    ghost Value = { SoFar Member };

    ghost view = { λ s. record {
      functions = s.functions;
      pieces = s.pieces;
      frames = reverse s.frames.items;
    } };
}

impl SoFar {
    /// No entries.
    pub fn new(alloc: Global) -> SoFar
        ensures { result ≡ nothing }
    {
        SoFar {
            functions: FunctionMembers::new(alloc),
            pieces: 0,
            frames: Vec::new(alloc),
        }
    }

    /// How many pieces the entries have.
    pub fn pieces(&self) -> u64
        ensures { result ≡ self.now.pieces }
    {
        self.pieces
    }

    /// The frame of the entry right above one at a depth.
    pub fn frame_above(&self, depth: u32) -> EntryFrame
        ensures { result ≡ above_told depth self.now.frames }
    {
        frame::frame_above(&self.frames, depth)
    }

    /// Passes an entry that is no member, with its frame.
    pub fn pass(&mut self, depth: u32, frame: EntryFrame) -> Result<(), NoMemory>
        ensures { OnOk result (self.new ≡ behind_other depth frame 0 self.old) }
    {
        frame::put(&mut self.frames, depth, frame)
    }

    /// Adds a function, which gets the next number.
    pub fn add_function(
        &mut self,
        alloc: Global,
        depth: u32,
        function: Member,
        pieces: u64,
    ) -> Result<(), NoMemory>
        requires { self.old.pieces + pieces < 2 ^ 64 }
        ensures { OnOk result (self.new ≡ behind_function depth function pieces self.old) }
    {
        let frame = EntryFrame::of_function(self.functions.len());
        self.functions.add_function(alloc, function)?;
        frame::put(&mut self.frames, depth, frame)?;
        self.pieces += pieces;
        Ok(())
    }

    /// Adds a call with its frame, which is a member where it is of a function.
    pub fn add_call(
        &mut self,
        depth: u32,
        frame: EntryFrame,
        call: Member,
        pieces: u64,
    ) -> Result<(), NoMemory>
        requires { self.old.pieces + pieces < 2 ^ 64 }
        ensures { OnOk result (self.new ≡ behind_call depth frame call pieces self.old) }
    {
        self.functions.add_call(frame.function, call)?;
        frame::put(&mut self.frames, depth, frame)?;
        self.pieces += pieces;
        Ok(())
    }

    /// Begins a unit.
    pub fn begin_unit(&mut self)
        ensures { self.new ≡ behind_unit self.old }
    {
        self.frames.clear();
    }

    /// The members of all functions, one function behind the other.
    pub fn into_members(self, alloc: Global) -> Result<Vec<Member>, NoMemory>
        ensures { IfOk result (λ all. all.items ≡ all_members self) }
    {
        self.functions.into_members(alloc)
    }
}
