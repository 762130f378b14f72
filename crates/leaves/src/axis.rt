//! Differences along one axis.
ghost use Rattle.std.specs.Prelude.{◌≡◌, ◌≤◌, ◌-ℤ◌, unsigned_abs};
ghost use Rattle.std.specs.Int.{int_max};
ghost use Rattle.solid.specs.declared.TheConstants.{MOST_REACH};

/// How far `n` lies outside `least..=most`. It is 0 or less where `n` lies in them.
#[inline(always)]
pub(crate) fn outside(least: i32, most: i32, n: i32) -> i32
    requires least_in_reach { unsigned_abs least ≤ MOST_REACH }
    requires most_in_reach { unsigned_abs most ≤ MOST_REACH }
    requires n_in_reach { unsigned_abs n ≤ MOST_REACH }
    ensures { result ≡ int_max (least -ℤ n) (n -ℤ most) }
{
    (least - n).max(n - most)
}
