// Texts that are summed.
ghost use Rattle.std.specs.Prelude.{◌≡◌, ◌≤◌, ◌^◌, ◌++◌, ◌∷◌, [], ℕ, List, length, IfOk};
ghost use Rattle.std.specs.Int.NonZero.{non_zero_u16_get};
ghost use Rattle.std.specs.Option.{option_map};
ghost use Rattle.refusal.specs.Place.{JudgesUnlessNoMemory};
ghost use Rattle.profile_model.specs.Merge.{first_bad_of_summed, merged, merge_text};
ghost use Rattle.profile_merge.specs.Laws.{place_over};
ghost use Rattle.profile_merge.specs.Sums.{AddsPart, StaySumsOf, TellOnce, first_over};
ghost use Rattle.merge_maker.specs.Merge.{HasRoom, IsMergeOf};

use key_types::{Keys, Names};
use profile_merge::{MergeStop, Sums};
use profile_text::{Profile, read, write};
use refusal::{Kind, NoMemory, Place, Stop};
use std::alloc::Global;
use std::marker::Model;
use std::num::NonZeroU16;

/// Profile texts that were read and summed, each with its weight. Names are borrowed from them.
#[derive(Drop)]
pub struct Merge<'a> {
    names: Names<'a>,
    keys: Keys,
    sums: Sums,
}

// Clauses see the names, the keys and the sums.
impl<'a> Model for Merge<'a> {
    ghost use Rattle.merge_maker.specs.Merge.{State};

    ghost Value = { State };

    ghost view = { λ m. record { names = m.names; keys = m.keys; sums = m.sums } };
}

impl<'a> Merge<'a> {
    /// No text was read.
    ///
    /// # Errors
    /// `NoMemory`.
    pub fn new(alloc: Global) -> Result<Merge<'a>, NoMemory>
        ensures { IfOk result (λ merge. IsMergeOf merge []) }
    {
        Ok(Merge {
            names: Names::new(alloc)?,
            keys: Keys::new(alloc)?,
            sums: Sums::new(alloc)?,
        })
    }

    /// Sums a profile text of at most 2^28 bytes, which is the command's file `file`, with those
    /// before it, of which there are fewer than eight.
    ///
    /// # Errors
    /// `Refused` at the first bad place of the text behind those before it: its lines by themselves
    /// first, then the first number that would not fit 64 bits; and `NoMemory`. The merge is then
    /// of no use.
    pub fn add(
        &mut self,
        alloc: Global,
        text: &'a [u8],
        file: u8,
        weight: NonZeroU16,
    ) -> Result<(), Stop>
        requires size { length text.now ≤ 2 ^ 28 }
        requires room { HasRoom self.old }
        ensures { (texts : List (ℕ × List ℕ)) → IsMergeOf self.old texts →
            JudgesUnlessNoMemory
            (first_bad_of_summed file (non_zero_u16_get weight) (merged texts) text.now) result
            (λ _. IsMergeOf self.new (texts ++ (non_zero_u16_get weight, text.now) ∷ [])) }
    {
        let part = read(alloc, text, file, &mut self.names, &mut self.keys)?;
        self.names.each_once();
        self.keys.each_once();
        self.sum(&part, file, weight)
    }

    /// Raises the sums by so many times the numbers of a text, which is the command's file `file`.
    fn sum(&mut self, part: &Profile, file: u8, weight: NonZeroU16) -> Result<(), Stop>
        requires once { TellOnce part.now.items }
        ensures judged { JudgesUnlessNoMemory (option_map (place_over file)
            (first_over (non_zero_u16_get weight) self.old.sums part.now.items)) result
            (λ _. AddsPart (non_zero_u16_get weight) part.now.items self.old.sums self.new.sums) }
        ensures given { StaySumsOf part.now.items self.old.sums self.new.sums }
        ensures names { self.new.names ≡ self.old.names }
        ensures keys { self.new.keys ≡ self.old.keys }
    {
        match self.sums.add(part, u64::from(weight.get())) {
            Ok(()) => Ok(()),
            Err(MergeStop::CountTooLarge(line)) => {
                Err(Stop::Refused(Place::on_line(file, line, Kind::CountTooLarge)))
            }
            Err(MergeStop::NoMemory) => Err(Stop::NoMemory),
        }
    }

    /// The text of what the sums say.
    ///
    /// # Errors
    /// `NoMemory`.
    pub fn text(&self, alloc: Global) -> Result<Vec<u8>, NoMemory>
        requires { (texts : List (ℕ × List ℕ)) × IsMergeOf self.now texts }
        ensures { (texts : List (ℕ × List ℕ)) → IsMergeOf self.now texts →
            IfOk result (λ out. out.items ≡ merge_text texts) }
    {
        let tree = self.sums.tree(alloc, &self.keys, &self.names)?;
        let mut out = Vec::new(alloc);
        write(&tree, &self.names, &mut out)?;
        Ok(out)
    }
}
