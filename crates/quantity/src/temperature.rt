// Temperatures, and how far one lies above another.
ghost use Rattle.std.specs.Prelude.{◌≡◌, ◌-ℤ◌};
ghost use Rattle.std.specs.Int.{w64};
ghost use Rattle.std.proofs.Common.{SFits, rules};

use limits::Measure;

// A temperature, in tenths of a degree Celsius.
#[derive(Clone, Copy)]
pub struct Degrees(pub i32);

impl Degrees {
    pub const LEAST: i32 = -200;

    pub const GREATEST: i32 = 18_000;
}

impl Measure for Degrees {
    ghost use Rattle.quantity.specs.declared.temperature.TheConstants.Degrees.{LEAST as least, GREATEST as greatest};

    const LEAST: i32 = Degrees::LEAST;

    const GREATEST: i32 = Degrees::GREATEST;

    ghost LEAST = { least };

    ghost GREATEST = { greatest };

    ghost amount = { λ held. held.0 };

    ghost ordered = { Prim.search rules };

    fn of(units: i32) -> Degrees {
        Degrees(units)
    }
}

impl Degrees {
    // How far this temperature lies above `base`.
    pub fn above(self, base: Degrees) -> Rise
        requires { SFits w64 (self.0 -ℤ base.0) }
        ensures { result.0 ≡ self.0 -ℤ base.0 }
    {
        Rise(self.0 as i64 - base.0 as i64)
    }
}

// The base temperature t, in tenths of a degree Celsius.
#[derive(Clone, Copy)]
pub struct Ambient(pub i32);

impl Ambient {
    pub const LEAST: i32 = -200;

    pub const GREATEST: i32 = 500;
}

impl Measure for Ambient {
    ghost use Rattle.quantity.specs.declared.temperature.TheConstants.Ambient.{LEAST as least, GREATEST as greatest};

    const LEAST: i32 = Ambient::LEAST;

    const GREATEST: i32 = Ambient::GREATEST;

    ghost LEAST = { least };

    ghost GREATEST = { greatest };

    ghost amount = { λ held. held.0 };

    ghost ordered = { Prim.search rules };

    fn of(units: i32) -> Ambient {
        Ambient(units)
    }
}

// The same temperature where any may stand.
impl From<Ambient> for Degrees {
    ghost from_gives = { λ ambient degrees. degrees.0 ≡ ambient.0 };

    fn from(ambient: Ambient) -> Degrees {
        Degrees(ambient.0)
    }
}

// The temperature of the fuel, in tenths of a degree Celsius.
#[derive(Clone, Copy)]
pub struct FuelTemperature(pub i32);

impl FuelTemperature {
    pub const LEAST: i32 = 0;

    pub const GREATEST: i32 = 600;
}

impl Measure for FuelTemperature {
    ghost use Rattle.quantity.specs.declared.temperature.TheConstants.FuelTemperature.{LEAST as least, GREATEST as greatest};

    const LEAST: i32 = FuelTemperature::LEAST;

    const GREATEST: i32 = FuelTemperature::GREATEST;

    ghost LEAST = { least };

    ghost GREATEST = { greatest };

    ghost amount = { λ held. held.0 };

    ghost ordered = { Prim.search rules };

    fn of(units: i32) -> FuelTemperature {
        FuelTemperature(units)
    }
}

// The same temperature where any may stand.
impl From<FuelTemperature> for Degrees {
    ghost from_gives = { λ fuel degrees. degrees.0 ≡ fuel.0 };

    fn from(fuel: FuelTemperature) -> Degrees {
        Degrees(fuel.0)
    }
}

// The temperature of the flue gas, in tenths of a degree Celsius.
// So written for the compiler: docs/DECISIONS.md, "A quantity is kept in 32 bits and counted with in 64".
#[derive(Clone, Copy)]
pub struct FlueTemperature(pub i16);

impl FlueTemperature {
    pub const LEAST: i32 = 0;

    pub const GREATEST: i32 = 12_000;
}

impl Measure for FlueTemperature {
    ghost use Rattle.quantity.specs.declared.temperature.TheConstants.FlueTemperature.{LEAST as least, GREATEST as greatest};

    const LEAST: i32 = FlueTemperature::LEAST;

    const GREATEST: i32 = FlueTemperature::GREATEST;

    ghost LEAST = { least };

    ghost GREATEST = { greatest };

    ghost amount = { λ held. held.0 };

    ghost ordered = { Prim.search rules };

    fn of(units: i32) -> FlueTemperature {
        FlueTemperature(units as i16)
    }
}

// The same temperature where any may stand.
impl From<FlueTemperature> for Degrees {
    ghost from_gives = { λ flue degrees. degrees.0 ≡ flue.0 };

    fn from(flue: FlueTemperature) -> Degrees {
        Degrees(flue.0 as i32)
    }
}

// The temperature of a flue gas that is analysed: up to the last row of table A.1, in tenths of a degree Celsius.
// So written for the compiler: docs/DECISIONS.md, "A quantity is kept in 32 bits and counted with in 64".
#[derive(Drop)]
pub struct AnalysedFlueTemperature(pub i16);

impl AnalysedFlueTemperature {
    pub const LEAST: i32 = 0;

    pub const GREATEST: i32 = 10_000;
}

impl Measure for AnalysedFlueTemperature {
    ghost use Rattle.quantity.specs.declared.temperature.TheConstants.AnalysedFlueTemperature.{LEAST as least, GREATEST as greatest};

    const LEAST: i32 = AnalysedFlueTemperature::LEAST;

    const GREATEST: i32 = AnalysedFlueTemperature::GREATEST;

    ghost LEAST = { least };

    ghost GREATEST = { greatest };

    ghost amount = { λ held. held.0 };

    ghost ordered = { Prim.search rules };

    fn of(units: i32) -> AnalysedFlueTemperature {
        AnalysedFlueTemperature(units as i16)
    }
}

// The same temperature where any flue's may stand.
impl From<AnalysedFlueTemperature> for FlueTemperature {
    ghost from_gives = { λ analysed flue. flue.0 ≡ analysed.0 };

    fn from(analysed: AnalysedFlueTemperature) -> FlueTemperature {
        FlueTemperature(analysed.0)
    }
}

// The temperature of a section's surface, in tenths of a degree Celsius.
// So written for the compiler: docs/DECISIONS.md, "A quantity is kept in 32 bits and counted with in 64".
#[derive(Clone, Copy)]
pub struct SurfaceTemperature(pub i16);

impl SurfaceTemperature {
    pub const LEAST: i32 = -200;

    pub const GREATEST: i32 = 3_000;
}

impl Measure for SurfaceTemperature {
    ghost use Rattle.quantity.specs.declared.temperature.TheConstants.SurfaceTemperature.{LEAST as least, GREATEST as greatest};

    const LEAST: i32 = SurfaceTemperature::LEAST;

    const GREATEST: i32 = SurfaceTemperature::GREATEST;

    ghost LEAST = { least };

    ghost GREATEST = { greatest };

    ghost amount = { λ held. held.0 };

    ghost ordered = { Prim.search rules };

    fn of(units: i32) -> SurfaceTemperature {
        SurfaceTemperature(units as i16)
    }
}

// The same temperature where any may stand.
impl From<SurfaceTemperature> for Degrees {
    ghost from_gives = { λ surface degrees. degrees.0 ≡ surface.0 };

    fn from(surface: SurfaceTemperature) -> Degrees {
        Degrees(surface.0 as i32)
    }
}

impl SurfaceTemperature {
    // How far the surface lies above the air near it, Δ of the surface formulas.
    pub fn above(self, air: NearAir) -> Rise
        requires { SFits w64 (self.0 -ℤ air.0) }
        ensures { result.0 ≡ self.0 -ℤ air.0 }
    {
        Degrees::from(self).above(Degrees::from(air))
    }
}

// The temperature of the air near a section, in tenths of a degree Celsius.
// So written for the compiler: docs/DECISIONS.md, "A quantity is kept in 32 bits and counted with in 64".
#[derive(Clone, Copy)]
pub struct NearAir(pub i16);

impl NearAir {
    pub const LEAST: i32 = -200;

    pub const GREATEST: i32 = 500;
}

impl Measure for NearAir {
    ghost use Rattle.quantity.specs.declared.temperature.TheConstants.NearAir.{LEAST as least, GREATEST as greatest};

    const LEAST: i32 = NearAir::LEAST;

    const GREATEST: i32 = NearAir::GREATEST;

    ghost LEAST = { least };

    ghost GREATEST = { greatest };

    ghost amount = { λ held. held.0 };

    ghost ordered = { Prim.search rules };

    fn of(units: i32) -> NearAir {
        NearAir(units as i16)
    }
}

// The same temperature where any may stand.
impl From<NearAir> for Degrees {
    ghost from_gives = { λ air degrees. degrees.0 ≡ air.0 };

    fn from(air: NearAir) -> Degrees {
        Degrees(air.0 as i32)
    }
}

// How far one temperature lies above another, in tenths of a degree; negative where it lies below.
#[derive(Drop)]
pub struct Rise(pub i64);
