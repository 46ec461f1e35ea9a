use key_types::NameId;

/// What names an entry in a profile: the number of its name, where it has one, and the line that
/// its lines are counted from, which is 0 where none is given.
#[derive(Clone, Copy, Debug, PartialEq, Eq)]
pub struct Origin {
    pub name: Option<NameId>,
    pub line: u64,
}
