// How many binary digits counts to start from have.
ghost use Rattle.std.specs.Prelude.{◌↔◌, ℕ, ◌^◌, ◌<◌, ◌≤◌, IsTrue};
ghost use Rattle.std.specs.List.{All};
ghost use Rattle.block_model.specs.Limits.{bound_bits};
ghost use Rattle.flow_model.specs.Network.{arcs_of};
ghost use Rattle.residual_model.specs.Residual.{starting};
ghost use Rattle.scaling_model.specs.Bound.{StartWithin};

use flow_balance::starting_count;
use flow_network::{Arc, Net};

/// The most binary digits of a count to start from: weights and bounds are below 2^44.
const MOST_DIGITS: u32 = 44;

/// Whether each count to start from has at most so many binary digits: a weight, or 0 on the arcs
/// of calls and returns, moved into the arc's bounds.
pub fn starts_within(net: &Net, digits: u32) -> bool
    requires { digits < 64 }
    ensures { IsTrue result ↔ StartWithin digits net.now }
{
    are_within(net.arcs(), digits)
}

/// With how many binary digits each count to start from can be written.
pub(crate) fn digits_of(net: &Net) -> u32
    ensures most { result ≤ bound_bits }
    ensures within { StartWithin result net.now }
    ensures least { (digits : ℕ) → StartWithin digits net.now → result ≤ digits }
{
    let arcs = net.arcs();
    for digits in 0..MOST_DIGITS {
        if are_within(arcs, digits) {
            return digits;
        }
    }
    MOST_DIGITS
}

/// Whether each count to start from on these arcs has at most so many binary digits.
fn are_within(arcs: &[Arc], digits: u32) -> bool
    requires { digits < 64 }
    ensures { IsTrue result ↔ All (λ arc. starting arc < 2 ^ digits) arcs.now }
{
    for arc in arcs {
        if !is_within(arc, digits) {
            return false;
        }
    }
    true
}

/// Whether the count to start from on an arc has at most so many binary digits.
fn is_within(arc: &Arc, digits: u32) -> bool
    requires { digits < 64 }
    ensures { IsTrue result ↔ (starting arc.now < 2 ^ digits) }
{
    starting_count(arc) < 1 << digits
}
