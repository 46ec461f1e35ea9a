// The lines that are open.
ghost use Rattle.std.specs.Prelude.{◌≡◌, ◌<◌, ◌≤◌, ◌++◌, ◌∷◌, [], length, take, IfOk, OnOk};
ghost use Rattle.profile_tree.specs.Steps.{at_function, frame_step};
ghost use Rattle.profile_text.specs.Path.{IsKeyAt};

use crate::said::Location;
use item_lists::Items;
use key_types::{Frame, Key, NameId};
use refusal::NoMemory;
use std::alloc::Global;
use std::marker::Model;

/// The function and the calls that are open, the outermost first.
#[derive(Debug, Drop)]
pub(crate) struct Path {
    begun: bool,
    root: NameId,
    frames: Vec<Frame>,
}

// Clauses see the steps that lead to the innermost.
impl Model for Path {
    ghost use Rattle.std.specs.Prelude.{List};
    ghost use Rattle.profile_tree.specs.Steps.{NumberedStep};
    ghost use Rattle.profile_text.specs.Path.{steps_open};

    ghost Value = { List NumberedStep };

    ghost view = { λ p. steps_open p.begun p.root p.frames.items };
}

impl Path {
    /// Nothing is open.
    pub(crate) fn new(alloc: Global) -> Path
        ensures { result ≡ [] }
    {
        Path {
            begun: false,
            root: NameId(0),
            frames: Vec::new(alloc),
        }
    }

    /// How many lines are open.
    pub(crate) fn depth(&self) -> usize
        ensures { result ≡ length self.now }
    {
        if self.begun { self.frames.len() + 1 } else { 0 }
    }

    /// Opens a function in place of all that is open.
    pub(crate) fn begin(&mut self, name: NameId)
        ensures { self.new ≡ at_function name.0 ∷ [] }
    {
        self.begun = true;
        self.root = name;
        self.frames.clear();
    }

    /// Closes all but the outermost lines, so many of which stay open.
    pub(crate) fn close(&mut self, depth: usize)
        requires { 0 < depth }
        ensures { self.new ≡ take depth self.old }
    {
        self.frames.truncate(depth - 1);
    }

    /// Opens a call in the innermost line.
    pub(crate) fn open(&mut self, frame: Frame) -> Result<(), NoMemory>
        requires { 0 < length self.old }
        ensures { OnOk result (self.new ≡ self.old ++ frame_step frame ∷ []) }
    {
        self.frames.push(frame)?;
        Ok(())
    }

    /// The key of a line in the innermost.
    pub(crate) fn key(&self, alloc: Global, location: Location) -> Result<Key, NoMemory>
        requires { 0 < length self.now }
        ensures { IfOk result (λ key. IsKeyAt self.now location key) }
    {
        Ok(Key {
            root: self.root,
            calls: Items::new(Vec::from_slice(alloc, &self.frames)?),
            offset: location.offset,
            disc: location.disc,
        })
    }
}
