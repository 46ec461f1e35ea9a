use flow_network::Net;

/// What a search goes by: a network with a count on each arc, and with a price and an excess for
/// each side. A side whose excess is below 0 lacks counts.
// Why: It has no model, which would have to be turned back into references. What is true at any
// time is one record (`HasSettled`).
#[derive(Clone, Copy, Debug)]
pub struct Ground<'n> {
    pub net: &'n Net,
    pub counts: &'n [u64],
    pub prices: &'n [i64],
    pub excess: &'n [i64],
}
