ghost use Rattle.std.specs.Prelude.{◌≡◌, ◌++◌, ◌∷◌, [], IfOk, OnOk, length};
ghost use Rattle.std.specs.List.{flat_map};
ghost use Rattle.tree_model.specs.Tree.{with_call as with_call_told};

use chain_model::Member;
use refusal::NoMemory;
use std::alloc::Global;
use std::marker::Model;

/// A list of members for each function: itself, then the calls inlined into it.
#[derive(Debug, Drop)]
pub(crate) struct FunctionMembers {
    lists: Vec<Vec<Member>>,
}

// Clauses see the list of the lists.
impl Model for FunctionMembers {
    ghost use Rattle.std.specs.Prelude.{List, map};
    ghost use Rattle.chain_model.specs.declared.member.Member.{Member};

    ghost Value = { List (List Member) };

    ghost view = { λ f. map (λ list. list.items) f.lists.items };
}

impl FunctionMembers {
    /// No functions.
    pub fn new(alloc: Global) -> FunctionMembers
        ensures { result ≡ [] }
    {
        FunctionMembers {
            lists: Vec::new(alloc),
        }
    }

    /// How many functions there are.
    pub fn len(&self) -> usize
        ensures { result ≡ length self.now }
    {
        self.lists.len()
    }

    /// A function more.
    pub fn add_function(&mut self, alloc: Global, function: Member) -> Result<(), NoMemory>
        ensures { OnOk result (self.new ≡ self.old ++ (function ∷ []) ∷ []) }
    {
        let mut list = Vec::new(alloc);
        list.push(function)?;
        self.lists.push(list)?;
        Ok(())
    }

    /// A call more behind the members of the function of a number, if it is of one.
    pub fn add_call(&mut self, function: Option<usize>, call: Member) -> Result<(), NoMemory>
        ensures { OnOk result (self.new ≡ with_call_told function call self.old) }
    {
        let Some(number) = function else {
            return Ok(());
        };
        if number < self.lists.len() {
            self.lists[number].push(call)?;
        }
        Ok(())
    }

    /// The members of all functions, one function behind the other.
    pub fn into_members(self, alloc: Global) -> Result<Vec<Member>, NoMemory>
        ensures { IfOk result (λ all. all.items ≡ flat_map (λ function. function) self) }
    {
        let mut all = Vec::new(alloc);
        for mut list in self.lists {
            all.append(&mut list)?;
        }
        Ok(all)
    }
}
