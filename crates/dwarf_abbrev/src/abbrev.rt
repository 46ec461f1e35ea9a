use crate::attr::Attr;
use std::marker::Model;

/// The entries of a code: their tag, whether children may follow, and their attributes in the order
/// of the values.
#[derive(Debug, Drop)]
pub struct Abbrev<'t> {
    pub code: u64,
    pub tag: u64,
    pub children: bool,
    pub attrs: &'t [Attr],
}

impl<'t> Model for Abbrev<'t> {
    ghost use Rattle.unit_model.specs.Abbrev.{Abbrev};

    ghost Value = { Abbrev };

    ghost view = { λ a. record {
      code = a.code;
      tag = a.tag;
      children = a.children;
      attrs = a.attrs.now;
    } };
}
