ghost use Rattle.std.specs.Prelude.{◌≡◌};
ghost use Rattle.report_model.specs.Branches.{branch_class, class_by_reason, reason_of};

use key_types::{Places, Where};
use report_model::{Class, Reason};

/// The class of a branch from one address to another. No memory is taken.
pub fn classify<P: Places>(from: u64, to: u64, map: &P) -> Class
    ensures { result ≡ branch_class (P.place_of map.now) (P.entry_name_of map.now) from to }
{
    match map.entry_name(to) {
        Some(name) => Class::Entry(name),
        None => unless_unmapped(map.place(from), map.place(to)),
    }
}

/// The class of a branch that enters no named function, by the places of its ends.
fn unless_unmapped(from: Where, to: Where) -> Class
    ensures { result ≡ class_by_reason (reason_of from to) }
{
    match (from, to) {
        (Where::Outside, _) => Class::Unmapped(Reason::FromOutside),
        (Where::Nameless, _) => Class::Unmapped(Reason::FromNameless),
        (Where::NoLine, _) => Class::Unmapped(Reason::FromNoLine),
        (Where::At(_), Where::Outside) => Class::Unmapped(Reason::ToOutside),
        (Where::At(_), Where::Nameless) => Class::Unmapped(Reason::ToNameless),
        (Where::At(_), Where::NoLine | Where::At(_)) => Class::Inside,
    }
}
