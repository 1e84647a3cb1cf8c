// What heat is worth: of the fuel, of a material, and in joules.
ghost use Rattle.std.specs.Prelude.{◌≡◌, ◌+ℤ◌, ◌-ℤ◌};
ghost use Rattle.std.specs.Int.{w64};
ghost use Rattle.std.proofs.Common.{SFits, rules};

use limits::Measure;

// The heat in the fuel, in kilojoules per cubic metre.
#[derive(Clone, Copy)]
pub struct HeatingValue(pub i32);

impl HeatingValue {
    pub const LEAST: i32 = 3_000;

    pub const GREATEST: i32 = 130_000;
}

impl Measure for HeatingValue {
    ghost use Rattle.quantity.specs.declared.heat.TheConstants.HeatingValue.{LEAST as least, GREATEST as greatest};

    const LEAST: i32 = HeatingValue::LEAST;

    const GREATEST: i32 = HeatingValue::GREATEST;

    ghost LEAST = { least };

    ghost GREATEST = { greatest };

    ghost amount = { λ held. held.0 };

    ghost ordered = { Prim.search rules };

    fn of(units: i32) -> HeatingValue {
        HeatingValue(units)
    }
}

// The specific heat c, in 0.0001 kilojoules per kilogram and degree.
#[derive(Clone, Copy)]
pub struct SpecificHeat(pub i32);

impl SpecificHeat {
    pub const LEAST: i32 = 0;

    pub const GREATEST: i32 = 100_000;
}

impl Measure for SpecificHeat {
    ghost use Rattle.quantity.specs.declared.heat.TheConstants.SpecificHeat.{LEAST as least, GREATEST as greatest};

    const LEAST: i32 = SpecificHeat::LEAST;

    const GREATEST: i32 = SpecificHeat::GREATEST;

    ghost LEAST = { least };

    ghost GREATEST = { greatest };

    ghost amount = { λ held. held.0 };

    ghost ordered = { Prim.search rules };

    fn of(units: i32) -> SpecificHeat {
        SpecificHeat(units)
    }
}

// Heat, in joules; negative where it goes the other way.
#[derive(Clone, Copy)]
pub struct Joules(pub i64);

impl Joules {
    // Both heats together.
    pub fn plus(self, other: Joules) -> Joules
        requires { SFits w64 (self.0 +ℤ other.0) }
        ensures { result.0 ≡ self.0 +ℤ other.0 }
    {
        Joules(self.0 + other.0)
    }

    // What is left of this heat without the other.
    pub fn minus(self, other: Joules) -> Joules
        requires { SFits w64 (self.0 -ℤ other.0) }
        ensures { result.0 ≡ self.0 -ℤ other.0 }
    {
        Joules(self.0 - other.0)
    }
}
