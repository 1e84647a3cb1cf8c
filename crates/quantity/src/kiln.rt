// The stages of a firing and the sections of the kiln.
ghost use Rattle.std.proofs.Common.{rules};

use crate::sheet::StageCount;
use limits::{Count, Measure};

// A stage by its place among the lines `stage`.
#[derive(Clone, Copy)]
pub struct StageNumber(pub usize);

impl StageNumber {
    pub const LEAST: usize = 1;

    pub const GREATEST: usize = StageCount::GREATEST;
}

impl Count for StageNumber {
    ghost use Rattle.quantity.specs.declared.kiln.TheConstants.StageNumber.{LEAST as least, GREATEST as greatest};

    const LEAST: usize = StageNumber::LEAST;

    const GREATEST: usize = StageNumber::GREATEST;

    ghost LEAST = { least };

    ghost GREATEST = { greatest };

    ghost amount = { λ held. held.0 };

    ghost ordered = { Prim.search rules };

    fn numbered(number: usize) -> StageNumber {
        StageNumber(number)
    }
}

// How long a stage lasts, in minutes.
// So written for the compiler: docs/DECISIONS.md, "A quantity is kept in 32 bits and counted with in 64".
#[derive(Clone, Copy)]
pub struct Minutes(pub i16);

impl Minutes {
    pub const LEAST: i32 = 1;

    pub const GREATEST: i32 = 2_880;
}

impl Measure for Minutes {
    ghost use Rattle.quantity.specs.declared.kiln.TheConstants.Minutes.{LEAST as least, GREATEST as greatest};

    const LEAST: i32 = Minutes::LEAST;

    const GREATEST: i32 = Minutes::GREATEST;

    ghost LEAST = { least };

    ghost GREATEST = { greatest };

    ghost amount = { λ held. held.0 };

    ghost ordered = { Prim.search rules };

    fn of(units: i32) -> Minutes {
        Minutes(units as i16)
    }
}

// The number that a section goes by.
#[derive(Clone, Copy)]
pub struct SectionNumber(pub usize);

impl SectionNumber {
    pub const LEAST: usize = 1;

    pub const GREATEST: usize = 999;
}

impl Count for SectionNumber {
    ghost use Rattle.quantity.specs.declared.kiln.TheConstants.SectionNumber.{LEAST as least, GREATEST as greatest};

    const LEAST: usize = SectionNumber::LEAST;

    const GREATEST: usize = SectionNumber::GREATEST;

    ghost LEAST = { least };

    ghost GREATEST = { greatest };

    ghost amount = { λ held. held.0 };

    ghost ordered = { Prim.search rules };

    fn numbered(number: usize) -> SectionNumber {
        SectionNumber(number)
    }
}

// Where a section lies: 1 roof, 2 wall, 3 floor.
#[derive(Clone, Copy)]
pub struct SectionPlace(pub usize);

impl SectionPlace {
    pub const LEAST: usize = 1;

    pub const GREATEST: usize = 3;
}

impl Count for SectionPlace {
    ghost use Rattle.quantity.specs.declared.kiln.TheConstants.SectionPlace.{LEAST as least, GREATEST as greatest};

    const LEAST: usize = SectionPlace::LEAST;

    const GREATEST: usize = SectionPlace::GREATEST;

    ghost LEAST = { least };

    ghost GREATEST = { greatest };

    ghost amount = { λ held. held.0 };

    ghost ordered = { Prim.search rules };

    fn numbered(number: usize) -> SectionPlace {
        SectionPlace(number)
    }
}

// The surface of a section, in 0.01 square metres.
#[derive(Clone, Copy)]
pub struct Area(pub i32);

impl Area {
    pub const LEAST: i32 = 1;

    pub const GREATEST: i32 = 20_000;
}

impl Measure for Area {
    ghost use Rattle.quantity.specs.declared.kiln.TheConstants.Area.{LEAST as least, GREATEST as greatest};

    const LEAST: i32 = Area::LEAST;

    const GREATEST: i32 = Area::GREATEST;

    ghost LEAST = { least };

    ghost GREATEST = { greatest };

    ghost amount = { λ held. held.0 };

    ghost ordered = { Prim.search rules };

    fn of(units: i32) -> Area {
        Area(units)
    }
}

// A material by its code in table A.2, or 0 where the sheet gives c.
#[derive(Clone, Copy)]
pub struct Material(pub u32);

impl Material {
    pub const LEAST: usize = 0;

    pub const GREATEST: usize = 18;
}

impl Count for Material {
    ghost use Rattle.quantity.specs.declared.kiln.TheConstants.Material.{LEAST as least, GREATEST as greatest};

    const LEAST: usize = Material::LEAST;

    const GREATEST: usize = Material::GREATEST;

    ghost LEAST = { least };

    ghost GREATEST = { greatest };

    ghost amount = { λ held. held.0 };

    ghost ordered = { Prim.search rules };

    fn numbered(number: usize) -> Material {
        Material(number as u32)
    }
}
