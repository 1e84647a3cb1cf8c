// Square roots by pairs of bits, several side by side.
ghost use Rattle.std.specs.Prelude.{◌≡◌, map, ◌+◌, ◌*◌, ◌/◌, ◌^◌, ◌≤◌, ◌<◌};
ghost use Rattle.roots.specs.Root.{root};
ghost use Rattle.roots.specs.Steps.{Brought, Stepped, Short, EachBelow, EachBrought, EachShort, EachStepped, EachHalf};

use crate::{Work, step};
use std::array;

// How many roots are worked side by side: one root's steps wait for each other, and a processor has time for those of others in between.
pub const SIDE: usize = 8;

// A root that is being worked in half the bits.
type Narrow = Work<u32>;

// The last pair of a number, for which half the bits may not do.
fn finished(work: Narrow, n: u64) -> u64
    requires { Brought n 1 work.root work.rest }
    ensures { result ≡ root n }
{
    let wide = Work {
        root: u64::from(work.root),
        rest: u64::from(work.rest),
    };
    step(wide, n % 4).root
}

// As many square roots that are being worked.
#[derive(Drop)]
struct Works([Narrow; SIDE]);

impl Works {
    // The next step of each.
    fn stepped(self, half: [u32; SIDE], pair: u32) -> Works
        requires { (pair < 16) × EachShort self.0 }
        ensures { EachStepped half pair self.0 result.0 }
    {
        let works = self.0;
        Works(array::from_fn(|i| step(works[i], (half[i] >> (2 * pair)) % 4)))
    }

    // All pairs of one half, from one of them down to another, each brought down in every root before the next is.
    fn down(self, n: [u64; SIDE], from: u32, to: u32) -> Works
        requires { (1 ≤ to) × (to ≤ from) × (from ≤ 16 * (to / 16) + 16) × (to ≤ 16) × EachBelow n 31 × EachBrought n from self.0 }
        ensures { EachBrought n to result.0 }
    {
        let half = halves(n, 32 * (to / 16));
        let mut works = self;
        for pair in (to..from).rev() {
            works = works.stepped(half, pair % 16);
        }
        works
    }

    // The last step of each.
    fn last(self, n: [u64; SIDE]) -> [u64; SIDE]
        requires { EachBrought n 1 self.0 }
        ensures { result ≡ map root n }
    {
        let works = self.0;
        array::from_fn(|i| finished(works[i], n[i]))
    }
}

// 32 bits of each number, from a bit on.
fn halves(n: [u64; SIDE], from: u32) -> [u32; SIDE]
    requires { from ≤ 32 }
    ensures { EachHalf n from result }
{
    n.map(|x| ((x >> from) % 0x1_0000_0000) as u32)
}

// The roots of several numbers of so many pairs, side by side.
pub fn floor_roots(n: [u64; SIDE], pairs: u32) -> [u64; SIDE]
    requires { (16 ≤ pairs) × (pairs ≤ 31) × EachBelow n pairs }
    ensures { result ≡ map root n }
{
    let none = Works([Work { root: 0, rest: 0 }; SIDE]);
    none.down(n, pairs, 16).down(n, 16, 1).last(n)
}
