// The fuel, the air that burns it and the flue gas that leaves.
ghost use Rattle.std.proofs.Common.{rules};

use limits::Measure;

// The share of one gas in the fuel, in 0.01 %.
#[derive(Clone, Copy)]
pub struct Share(pub i32);

impl Share {
    pub const LEAST: i32 = 0;

    pub const GREATEST: i32 = 10_000;
}

impl Measure for Share {
    ghost use Rattle.quantity.specs.declared.gas.TheConstants.Share.{LEAST as least, GREATEST as greatest};

    const LEAST: i32 = Share::LEAST;

    const GREATEST: i32 = Share::GREATEST;

    ghost LEAST = { least };

    ghost GREATEST = { greatest };

    ghost amount = { λ held. held.0 };

    ghost ordered = { Prim.search rules };

    fn of(units: i32) -> Share {
        Share(units)
    }
}

// The moisture X of the air, in 0.0001 kilograms per kilogram.
#[derive(Clone, Copy)]
pub struct Moisture(pub i32);

impl Moisture {
    pub const LEAST: i32 = 0;

    pub const GREATEST: i32 = 500;
}

impl Measure for Moisture {
    ghost use Rattle.quantity.specs.declared.gas.TheConstants.Moisture.{LEAST as least, GREATEST as greatest};

    const LEAST: i32 = Moisture::LEAST;

    const GREATEST: i32 = Moisture::GREATEST;

    ghost LEAST = { least };

    ghost GREATEST = { greatest };

    ghost amount = { λ held. held.0 };

    ghost ordered = { Prim.search rules };

    fn of(units: i32) -> Moisture {
        Moisture(units)
    }
}

// The gas that a stage burns, in tenths of a cubic metre.
#[derive(Clone, Copy)]
pub struct CubicMetres(pub i32);

impl CubicMetres {
    pub const LEAST: i32 = 0;

    pub const GREATEST: i32 = 200_000;
}

impl Measure for CubicMetres {
    ghost use Rattle.quantity.specs.declared.gas.TheConstants.CubicMetres.{LEAST as least, GREATEST as greatest};

    const LEAST: i32 = CubicMetres::LEAST;

    const GREATEST: i32 = CubicMetres::GREATEST;

    ghost LEAST = { least };

    ghost GREATEST = { greatest };

    ghost amount = { λ held. held.0 };

    ghost ordered = { Prim.search rules };

    fn of(units: i32) -> CubicMetres {
        CubicMetres(units)
    }
}

// The gas that all stages burn, in tenths of a cubic metre.
#[derive(Clone, Copy)]
pub struct GasTotal(pub i32);

impl GasTotal {
    pub const LEAST: i32 = 100;

    pub const GREATEST: i32 = 200_000;
}

impl Measure for GasTotal {
    ghost use Rattle.quantity.specs.declared.gas.TheConstants.GasTotal.{LEAST as least, GREATEST as greatest};

    const LEAST: i32 = GasTotal::LEAST;

    const GREATEST: i32 = GasTotal::GREATEST;

    ghost LEAST = { least };

    ghost GREATEST = { greatest };

    ghost amount = { λ held. held.0 };

    ghost ordered = { Prim.search rules };

    fn of(units: i32) -> GasTotal {
        GasTotal(units)
    }
}

// Air for each part of theoretical air, in thousandths.
#[derive(Clone, Copy)]
pub struct ExcessAir(pub i32);

impl ExcessAir {
    pub const LEAST: i32 = 1_000;

    pub const GREATEST: i32 = 5_000;
}

impl Measure for ExcessAir {
    ghost use Rattle.quantity.specs.declared.gas.TheConstants.ExcessAir.{LEAST as least, GREATEST as greatest};

    const LEAST: i32 = ExcessAir::LEAST;

    const GREATEST: i32 = ExcessAir::GREATEST;

    ghost LEAST = { least };

    ghost GREATEST = { greatest };

    ghost amount = { λ held. held.0 };

    ghost ordered = { Prim.search rules };

    fn of(units: i32) -> ExcessAir {
        ExcessAir(units)
    }
}

// Carbon monoxide in the dry flue gas, in 0.01 %.
// So written for the compiler: docs/DECISIONS.md, "A quantity is kept in 32 bits and counted with in 64".
#[derive(Clone, Copy)]
pub struct CarbonMonoxide(pub i16);

impl CarbonMonoxide {
    pub const LEAST: i32 = 0;

    pub const GREATEST: i32 = 1_000;
}

impl Measure for CarbonMonoxide {
    ghost use Rattle.quantity.specs.declared.gas.TheConstants.CarbonMonoxide.{LEAST as least, GREATEST as greatest};

    const LEAST: i32 = CarbonMonoxide::LEAST;

    const GREATEST: i32 = CarbonMonoxide::GREATEST;

    ghost LEAST = { least };

    ghost GREATEST = { greatest };

    ghost amount = { λ held. held.0 };

    ghost ordered = { Prim.search rules };

    fn of(units: i32) -> CarbonMonoxide {
        CarbonMonoxide(units as i16)
    }
}

// Carbon dioxide with sulphur dioxide in the dry flue gas, as an analyser takes them together, in 0.01 %.
// So written for the compiler: docs/DECISIONS.md, "A quantity is kept in 32 bits and counted with in 64".
#[derive(Clone, Copy)]
pub struct Dioxides(pub i16);

impl Dioxides {
    pub const LEAST: i32 = 0;

    pub const GREATEST: i32 = 2_500;
}

impl Measure for Dioxides {
    ghost use Rattle.quantity.specs.declared.gas.TheConstants.Dioxides.{LEAST as least, GREATEST as greatest};

    const LEAST: i32 = Dioxides::LEAST;

    const GREATEST: i32 = Dioxides::GREATEST;

    ghost LEAST = { least };

    ghost GREATEST = { greatest };

    ghost amount = { λ held. held.0 };

    ghost ordered = { Prim.search rules };

    fn of(units: i32) -> Dioxides {
        Dioxides(units as i16)
    }
}

// Oxygen in the dry flue gas, in 0.01 %.
// So written for the compiler: docs/DECISIONS.md, "A quantity is kept in 32 bits and counted with in 64".
#[derive(Clone, Copy)]
pub struct Oxygen(pub i16);

impl Oxygen {
    pub const LEAST: i32 = 0;

    pub const GREATEST: i32 = 2_100;
}

impl Measure for Oxygen {
    ghost use Rattle.quantity.specs.declared.gas.TheConstants.Oxygen.{LEAST as least, GREATEST as greatest};

    const LEAST: i32 = Oxygen::LEAST;

    const GREATEST: i32 = Oxygen::GREATEST;

    ghost LEAST = { least };

    ghost GREATEST = { greatest };

    ghost amount = { λ held. held.0 };

    ghost ordered = { Prim.search rules };

    fn of(units: i32) -> Oxygen {
        Oxygen(units as i16)
    }
}
