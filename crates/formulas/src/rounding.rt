// From exact quotients to whole units.
ghost use Rattle.std.specs.Prelude.{◌≡◌, pos, nat_abs, ◌<ℤ◌};
ghost use Rattle.arith.specs.Nearest.{nearest};

use quantity::heat::Joules;

// An exact quotient: so many parts, and of how many one unit is made.
#[derive(Drop)]
pub struct Quotient(pub i64, pub i64);

// So many whole units.
#[derive(Drop)]
pub struct Units(pub i64);

impl Quotient {
    // Brought to the nearest whole unit.
    pub fn units(self) -> Units
        requires { pos 0 <ℤ self.1 }
        ensures { result.0 ≡ nearest self.0 (nat_abs self.1) }
    {
        Units(arith::nearest(self.0, self.1))
    }

    // Brought to the nearest whole joule, where the unit is one.
    pub fn joules(self) -> Joules
        requires { pos 0 <ℤ self.1 }
        ensures { result.0 ≡ nearest self.0 (nat_abs self.1) }
    {
        Joules(self.units().0)
    }
}
