// Augmentations until no side has excess.
ghost use Rattle.std.specs.Prelude.{◌≡◌, ◌<◌, ◌≤◌, ◌*◌, length, pos, true, false, ◌<ℤ◌, ◌≤ℤ◌};
ghost use Rattle.std.specs.Prelude.{IfOk, OnOk};
ghost use Rattle.path_search.specs.Ground.{price_at};
ghost use Rattle.flow_balance.specs.declared.balancing.Outcome.TheVariants.{Closed, Even, Spent};
ghost use Rattle.flow_balance.specs.declared.balancing.ExcessSides.TheVariants.{All};
ghost use Rattle.flow_balance.specs.State.{AreLater, AreSpent, IsClosedFrom};
ghost use Rattle.flow_balance.specs.State.{IsDone, IsGiven, IsState};

use crate::augmenting::{Workspace, augment};
use crate::giving::give_around;
use flow_network::Net;
use refusal::NoMemory;

/// How balancing ends.
#[derive(Clone, Copy, Debug, PartialEq, Eq)]
pub enum Outcome {
    /// No side has excess, so none lacks counts: the counts are least.
    Even,
    /// From some side that has excess none can be reached that lacks counts: what was reached is a
    /// cut.
    Closed,
    /// As many augmentations were made as were allowed.
    Spent,
}

/// Augments until no side has excess, for as long as augmentations may be made.
///
/// Each augmentation moves at least one unit of excess. The sides that one arc leaves come first.
/// Their excess has to go over that arc, and the other sides then choose among what is left.
pub fn balance(
    net: &Net,
    counts: &mut [u64],
    prices: &mut [i64],
    excess: &mut [i64],
    work: &mut Workspace,
) -> Result<Outcome, NoMemory>
    requires state { IsState net.now counts.old prices.old excess.old }
    requires marked { length work.old.search.marks ≡ length prices.old }
    ensures marked { OnOk result (length work.new.search.marks ≡ length prices.new) }
    ensures spent { OnOk result
        (AreSpent work.old.left excess.old work.new.left excess.new) }
    ensures even { IfOk result (λ end. end ≡ Even
        → IsDone net.now counts.new prices.new excess.new) }
    ensures later { IfOk result (λ end. end ≡ Even
        → AreLater counts.old prices.old excess.old counts.new prices.new excess.new) }
    ensures closed { IfOk result (λ end. end ≡ Closed
        → IsClosedFrom net.now counts.new prices.new excess.new work.new.search.marks) }
    ensures none_left { IfOk result (λ end. end ≡ Spent → work.new.left ≡ 0) }
{
    match balance_sides(net, counts, prices, excess, work, ExcessSides::OfOneArc)? {
        Outcome::Even => balance_sides(net, counts, prices, excess, work, ExcessSides::All),
        Outcome::Closed => Ok(Outcome::Closed),
        Outcome::Spent => Ok(Outcome::Spent),
    }
}

/// The sides whose excess is taken.
#[derive(Clone, Copy, Debug)]
enum ExcessSides {
    /// Those that one arc leaves.
    OfOneArc,
    All,
}

/// Augments until none of these sides has excess.
fn balance_sides(
    net: &Net,
    counts: &mut [u64],
    prices: &mut [i64],
    excess: &mut [i64],
    work: &mut Workspace,
    sides: ExcessSides,
) -> Result<Outcome, NoMemory>
    requires state { IsState net.now counts.old prices.old excess.old }
    requires marked { length work.old.search.marks ≡ length prices.old }
    ensures marked { OnOk result (length work.new.search.marks ≡ length prices.new) }
    ensures spent { OnOk result
        (AreSpent work.old.left excess.old work.new.left excess.new) }
    ensures given { IfOk result (λ end. end ≡ Even
        → IsGiven net.now counts.old prices.old excess.old counts.new prices.new excess.new) }
    ensures even { IfOk result (λ end. end ≡ Even → sides ≡ All
        → IsDone net.now counts.new prices.new excess.new) }
    ensures closed { IfOk result (λ end. end ≡ Closed
        → IsClosedFrom net.now counts.new prices.new excess.new work.new.search.marks) }
    ensures none_left { IfOk result (λ end. end ≡ Spent → work.new.left ≡ 0) }
{
    for side in 0..excess.len() as u32 {
        if !is_due(net, excess, side, sides) {
            continue;
        }
        match balance_side(net, counts, prices, excess, work, side)? {
            Outcome::Even => {}
            Outcome::Closed => return Ok(Outcome::Closed),
            Outcome::Spent => return Ok(Outcome::Spent),
        }
    }
    Ok(Outcome::Even)
}

/// Whether a side has excess, and is one of these.
fn is_due(net: &Net, excess: &[i64], side: u32, sides: ExcessSides) -> bool
    requires inside { side < length excess.now }
    requires side { side ≤ 2 * length net.now.blocks }
    ensures due { result ≡ true → pos 0 <ℤ price_at excess.now side }
    ensures passed { result ≡ false → sides ≡ All → price_at excess.now side ≤ℤ pos 0 }
{
    if excess[side as usize] <= 0 {
        return false;
    }
    match sides {
        ExcessSides::OfOneArc => net.leaving(side).len() == 1,
        ExcessSides::All => true,
    }
}

/// Augments until a side has no excess.
fn balance_side(
    net: &Net,
    counts: &mut [u64],
    prices: &mut [i64],
    excess: &mut [i64],
    work: &mut Workspace,
    side: u32,
) -> Result<Outcome, NoMemory>
    requires state { IsState net.now counts.old prices.old excess.old }
    requires marked { length work.old.search.marks ≡ length prices.old }
    requires side { side < length excess.old }
    ensures marked { OnOk result (length work.new.search.marks ≡ length prices.new) }
    ensures spent { OnOk result
        (AreSpent work.old.left excess.old work.new.left excess.new) }
    ensures given { IfOk result (λ end. end ≡ Even
        → IsGiven net.now counts.old prices.old excess.old counts.new prices.new excess.new) }
    ensures even { IfOk result (λ end. end ≡ Even → price_at excess.new side ≤ℤ pos 0) }
    ensures closed { IfOk result (λ end. end ≡ Closed
        → IsClosedFrom net.now counts.new prices.new excess.new work.new.search.marks) }
    ensures none_left { IfOk result (λ end. end ≡ Spent → work.new.left ≡ 0) }
{
    give_around(net, counts, prices, excess, side, &mut work.left);
    while excess[side as usize] > 0 {
        if work.left == 0 {
            return Ok(Outcome::Spent);
        }
        if !augment(net, counts, prices, excess, side, work)? {
            return Ok(Outcome::Closed);
        }
    }
    Ok(Outcome::Even)
}
