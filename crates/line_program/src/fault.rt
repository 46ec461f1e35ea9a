ghost use Rattle.std.specs.Prelude.{◌≡◌};
ghost use Rattle.placed_view.specs.Reader.{kind_of as kind_told};
ghost use Rattle.refusal.specs.declared.place.ItemStop.TheVariants.{Refused};

use byte_view::ViewFault;
use placed_view::kind_of;
use refusal::{ItemStop, Kind};

/// Why an operation is refused.
#[derive(Clone, Copy, Debug, PartialEq, Eq)]
pub(crate) struct Fault {
    pub kind: Kind,
}

impl From<ViewFault> for Fault {
    ghost from_gives = { λ view fault. fault.kind ≡ kind_told view };

    fn from(view: ViewFault) -> Fault {
        Fault {
            kind: kind_of(view),
        }
    }
}

impl From<Fault> for ItemStop {
    ghost from_gives = { λ fault stop. stop ≡ Refused fault.kind };

    fn from(fault: Fault) -> Self {
        ItemStop::Refused(fault.kind)
    }
}
