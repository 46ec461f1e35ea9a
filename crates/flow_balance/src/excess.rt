// Excess of sides.
ghost use Rattle.std.specs.Prelude.{◌≡◌, ◌+◌, ◌^◌, ◌<◌, ◌≤ℤ◌, ℕ, length, pos, true};
ghost use Rattle.path_search.specs.Ground.{price_at};
ghost use Rattle.flow_balance.specs.Excess.{lack_of, surplus_of, transferred};

/// What enters one side more and leaves another one.
pub fn transfer(excess: &mut [i64], from: u32, to: u32, amount: u64)
    requires starts { from < length excess.old }
    requires leads { to < length excess.old }
    requires up { surplus_of (price_at excess.old to) + amount < 2 ^ 63 }
    requires down { lack_of (price_at excess.old from) + amount < 2 ^ 63 }
    ensures { excess.new ≡ transferred excess.old from to amount }
{
    excess[to as usize] += amount as i64;
    excess[from as usize] -= amount as i64;
}

/// Whether no side has excess.
pub(crate) fn is_even(excess: &[i64]) -> bool
    ensures { result ≡ true
        → (side : ℕ) → side < length excess.now → price_at excess.now side ≤ℤ pos 0 }
{
    for one in excess {
        if *one > 0 {
            return false;
        }
    }
    true
}
