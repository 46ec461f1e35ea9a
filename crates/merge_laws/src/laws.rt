// Sums, seen from their order.
ghost use Rattle.merge_laws.specs.Orders.{OrderIsNoMatter};

/// Texts with their weights that are good one behind the other are so in any other order, and their
/// merge is the same text.
pub fn order_is_no_matter()
    ensures { OrderIsNoMatter }
{}
