// The square root cut down to a whole number.
#![tactic(auto)]

mod several;

ghost use Rattle.std.specs.Prelude.{ℕ, ◌≡◌, ◌+◌, ◌*◌, ◌^◌, ◌≤◌, ◌<◌};
ghost use Rattle.roots.specs.Root.{root};
ghost use Rattle.roots.specs.Word.{Counts, counts_below};
ghost use Rattle.roots.specs.Steps.{Stepped};

pub use several::{SIDE, floor_roots};
use std::ops::{Add, Mul, Sub};

// A word of the machine: it counts as the numbers do that it holds, as long as they are below its bound.
trait Word: Copy
    + Drop
    + From<u8>
    + PartialOrd
    + Add<Self, Output = Self>
    + Sub<Self, Output = Self>
    + Mul<Self, Output = Self> {
    ghost value: { Self → ℕ };

    ghost bound: { ℕ };

    ghost counts: { Counts value bound Self.from_gives Self.partial_cmp Self.can_add Self.add_gives Self.can_sub Self.sub_gives Self.can_mul Self.mul_gives };
}

impl Word for u64 {
    ghost value = { λ x. x };

    ghost bound = { 2 ^ 64 };

    ghost counts = { counts_below (2 ^ 64) };
}

// Half the bits: a processor takes twice as many of these at once.
impl Word for u32 {
    ghost value = { λ x. x };

    ghost bound = { 2 ^ 32 };

    ghost counts = { counts_below (2 ^ 32) };
}

// A square root that is being worked: the root of the pairs of bits that are brought down, and what is left of them.
#[derive(Clone, Copy)]
struct Work<W> {
    root: W,
    rest: W,
}

// A step on paper (docs/ROOT.md): bring the next pair down to the rest, try the digit 1, and take it away where it goes.
fn step<W: Word>(work: Work<W>, pair: W) -> Work<W>
    requires { (W.value pair < 4) × (8 * W.value work.root + 4 ≤ W.bound) × (W.value work.rest ≤ 2 * W.value work.root) }
    ensures { Stepped (W.value pair) (W.value work.root) (W.value work.rest) (W.value result.root) (W.value result.rest) }
{
    let rest = work.rest * W::from(4) + pair;
    let trial = work.root * W::from(4) + W::from(1);
    // Doubled before it is asked, for the compiler: docs/DECISIONS.md, "`floor_root` takes every u64".
    let twice = work.root * W::from(2);
    if trial <= rest {
        // the digit is 1
        Work {
            root: twice + W::from(1),
            rest: rest - trial,
        }
    } else {
        // the digit is 0
        Work {
            root: twice,
            rest: rest,
        }
    }
}

// The greatest r whose square is not above n, as on paper: from the highest pair of bits that is not 0 down to the last.
pub fn floor_root(n: u64) -> u64
    ensures { result ≡ root n }
{
    let pairs = (65 - u64::leading_zeros(n)) / 2;
    let mut work = Work { root: 0, rest: 0 };
    for behind in (0..pairs).rev() {
        work = step(work, (n >> (2 * behind)) % 4);
    }
    work.root
}
