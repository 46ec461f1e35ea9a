// The functions of a generated program, numbered from 0.
ghost use Rattle.std.specs.Prelude.{◌≡◌, ◌<◌, ◌≤◌};
ghost use Rattle.case_model.specs.Functions.{address, caller, name, weight};

/// The most functions of a program: as many as there are names of four digits that fit the layout.
pub const MAX_FUNCTIONS: u64 = 4096;

/// How many bytes each function has.
pub const FUNCTION_SIZE: u64 = 0x40;

/// Where the program begins.
pub const FIRST_ADDRESS: u64 = 0x40_1000;

/// Where function `k` begins.
pub fn address(k: u64) -> u64
    requires { k < MAX_FUNCTIONS }
    ensures is { result ≡ address k }
    ensures small { result < 0x441000 }
{
    FIRST_ADDRESS + FUNCTION_SIZE * k
}

/// How often the larger part of the samples of function `k` stands.
pub fn weight(k: u64) -> u64
    ensures { result ≡ weight k }
{
    1 + k % 64
}

/// The function that calls function `k` of `n`.
pub fn caller(n: u64, k: u64) -> u64
    requires within { k < n }
    requires few { n ≤ MAX_FUNCTIONS }
    ensures is { result ≡ caller n k }
    ensures within { result < n }
{
    (k + 1) % n
}

/// The name of function `k`: `f` and its number in four digits.
#[tactic(auto, unfolding(case_model::specs::Functions::name))]
pub fn name(k: u64) -> [u8; 5]
    ensures { result ≡ name k }
{
    let digit = |place: u64| b'0' + (k / place % 10) as u8;
    [b'f', digit(1000), digit(100), digit(10), digit(1)]
}
