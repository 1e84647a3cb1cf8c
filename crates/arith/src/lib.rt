// Division that rounds to the nearest whole number.
#![tactic(auto)]

ghost use Rattle.std.specs.Prelude.{◌≡◌, ◌^◌, ◌<◌, ℤ, pos, nat_abs, ◌<ℤ◌};
ghost use Rattle.std.specs.Int.{w64};
ghost use Rattle.std.proofs.Common.{SFits};
ghost use Rattle.arith.specs.Nearest.{nearest, nearest_ℕ, with_sign};

// The size of a number: that of the least i64 is no i64, but fits.
pub fn magnitude(z: i64) -> u64
    ensures { result ≡ nat_abs z }
{
    z.unsigned_abs()
}

// A size divided and brought to the nearest whole number, halves to the even one: one up where what is wanting to the next is less than what
// is left over, with 1 more where the quotient is odd.
fn nearest_size(size: u64, by: u64) -> u64
    requires { (0 < by) × (by < 2 ^ 63) }
    ensures { result ≡ nearest_ℕ size by }
{
    let q = size / by;
    let over = size % by;
    if by - over < over + q % 2 { q + 1 } else { q }
}

// A size with the sign of a number; that of the least i64 too.
fn with_sign(like: i64, size: u64) -> i64
    requires { SFits w64 (with_sign like size) }
    ensures { result ≡ with_sign like size }
{
    if like < 0 {
        if size == 0 {
            0
        } else {
            -((size - 1) as i64) - 1
        }
    } else {
        size as i64
    }
}

// n / d brought to the nearest whole number, halves to the even one, for every n.
pub fn nearest(n: i64, d: i64) -> i64
    requires { pos 0 <ℤ d }
    ensures { result ≡ nearest n (nat_abs d) }
{
    with_sign(n, nearest_size(magnitude(n), d as u64))
}
