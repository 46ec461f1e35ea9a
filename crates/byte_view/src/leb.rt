ghost use Rattle.std.specs.Prelude.{◌≡◌, ◌≤◌, ◌<◌, drop, length, IfOk, IfErr};
ghost use Rattle.byte_view.specs.Reading.{uleb_at, sleb_at};
ghost use Rattle.byte_view.specs.Front.{IsFront};
ghost use Rattle.byte_view.specs.Leb.{IsScale, twos_complement};

use crate::fault::ViewFault;

/// The digits of a number that stand first of some bytes, nine of them at most.
#[derive(Clone, Copy)]
enum Front {
    /// All digits of the number: what they are worth without a sign, how many there are, and 128
    /// to that power.
    Whole {
        value: u64,
        count: usize,
        scale: u64,
    },
    /// What the first nine are worth, and the byte behind them.
    Nine {
        value: u64,
        tenth: u8,
    },
}

/// The digits that stand first. Numbers of one and two bytes, which most are, come without a loop.
#[inline(always)]
fn front_of(bytes: &[u8]) -> Result<Front, ViewFault>
    ensures found { IfOk result (IsFront bytes.now) }
    ensures unsigned_cut { IfErr result (λ fault. uleb_at bytes.now ≡ Err fault) }
    ensures signed_cut { IfErr result (λ fault. sleb_at bytes.now ≡ Err fault) }
{
    match bytes {
        [low, ..] if *low < 128 => Ok(Front::Whole {
            value: u64::from(*low),
            count: 1,
            scale: 128,
        }),
        [low, high, ..] if *high < 128 => Ok(Front::Whole {
            value: u64::from(*low % 128) + 128 * u64::from(*high),
            count: 2,
            scale: 128 * 128,
        }),
        _ => long_front_of(bytes),
    }
}

/// The same for any number of bytes, one by one.
fn long_front_of(bytes: &[u8]) -> Result<Front, ViewFault>
    ensures found { IfOk result (IsFront bytes.now) }
    ensures unsigned_cut { IfErr result (λ fault. uleb_at bytes.now ≡ Err fault) }
    ensures signed_cut { IfErr result (λ fault. sleb_at bytes.now ≡ Err fault) }
{
    let mut value = 0;
    let mut scale = 1;
    for i in 0..9 {
        let Some(byte) = bytes.get(i) else {
            return Err(ViewFault::Short);
        };
        value += u64::from(*byte % 128) * scale;
        scale *= 128;
        if *byte < 128 {
            return Ok(Front::Whole {
                value,
                count: i + 1,
                scale,
            });
        }
    }
    let Some(tenth) = bytes.get(9) else {
        return Err(ViewFault::Short);
    };
    Ok(Front::Nine {
        value,
        tenth: *tenth,
    })
}

/// The value of digits without a sign, as two's complement of `scale` values. Signs are as good as
/// random, so there is no branch.
#[inline(always)]
fn signed(value: u64, scale: u64) -> i64
    requires below { value < scale }
    requires power { IsScale scale }
    ensures { result ≡ twos_complement scale value }
{
    let sign = value & (scale / 2);
    value.wrapping_sub(2 * sign).cast_signed()
}

/// The unsigned number at the front, and how many bytes spell it.
#[inline(always)]
pub(crate) fn uleb_of(bytes: &[u8]) -> Result<(u64, usize), ViewFault>
    ensures within { IfOk result (λ found. found.1 ≤ length bytes.now) }
    ensures found { IfOk result
        (λ found. uleb_at bytes.now ≡ Ok (found.0, drop found.1 bytes.now)) }
    ensures refused { IfErr result (λ fault. uleb_at bytes.now ≡ Err fault) }
{
    match front_of(bytes)? {
        Front::Whole { value, count, .. } => Ok((value, count)),
        Front::Nine { value, tenth: 0 } => Ok((value, 10)),
        Front::Nine { value, tenth: 1 } => Ok((value + (1 << 63), 10)),
        Front::Nine { .. } => Err(ViewFault::LebTooLong),
    }
}

/// The signed number at the front, and how many bytes spell it.
#[inline(always)]
pub(crate) fn sleb_of(bytes: &[u8]) -> Result<(i64, usize), ViewFault>
    ensures within { IfOk result (λ found. found.1 ≤ length bytes.now) }
    ensures found { IfOk result
        (λ found. sleb_at bytes.now ≡ Ok (found.0, drop found.1 bytes.now)) }
    ensures refused { IfErr result (λ fault. sleb_at bytes.now ≡ Err fault) }
{
    match front_of(bytes)? {
        Front::Whole {
            value,
            count,
            scale,
        } => Ok((signed(value, scale), count)),
        Front::Nine { value, tenth: 0 } => Ok((value as i64, 10)),
        Front::Nine { value, tenth: 0x7f } => Ok((value as i64 + i64::MIN, 10)),
        Front::Nine { .. } => Err(ViewFault::LebTooLong),
    }
}
