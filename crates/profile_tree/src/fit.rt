// That all numbers fit 64 bits, as a proof has to know that rests on it. Nothing is done here.
ghost use Rattle.std.specs.Prelude.{◌<◌, ◌^◌, All};

use crate::head::Head;
use profile_lists::Call;

/// No call has 2^64 times.
pub fn calls_fit(calls: &[Call])
    ensures { All (λ call. call.times < 2 ^ 64) calls.now }
{
    for call in calls {
        fits(call.times);
    }
}

/// No head has 2^64 times.
pub fn heads_fit(heads: &[Head])
    ensures { All (λ head. head.times < 2 ^ 64) heads.now }
{
    for head in heads {
        fits(head.times);
    }
}

/// No number is 2^64.
fn fits(times: u64)
    ensures { times < 2 ^ 64 }
{
    let _times = times;
}
