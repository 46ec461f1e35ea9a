// The sides of blocks, which are the nodes of a network.
ghost use Rattle.std.specs.Prelude.{◌≡◌, ◌<◌};
ghost use Rattle.flow_model.specs.Network as model;

/// The node that closes the ways through a function to circles.
pub const ROOT: u32 = 0;

/// The side at which a block is entered.
pub fn in_side(block: u32) -> u32
    requires { block < 65536 }
    ensures { result ≡ model.in_side block }
{
    1 + 2 * block
}

/// The side at which a block is left.
pub fn out_side(block: u32) -> u32
    requires { block < 65536 }
    ensures { result ≡ model.out_side block }
{
    2 + 2 * block
}
