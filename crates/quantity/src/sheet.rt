// What numbers a sheet and says how many lines follow.
ghost use Rattle.std.proofs.Common.{rules};

use limits::{Count, Measure};

// The edition of the sheet's form, of which there is one.
#[derive(Clone, Copy)]
pub struct Edition(pub usize);

impl Edition {
    pub const LEAST: usize = 1;

    pub const GREATEST: usize = 2;
}

impl Count for Edition {
    ghost use Rattle.quantity.specs.declared.sheet.TheConstants.Edition.{LEAST as least, GREATEST as greatest};

    const LEAST: usize = Edition::LEAST;

    const GREATEST: usize = Edition::GREATEST;

    ghost LEAST = { least };

    ghost GREATEST = { greatest };

    ghost amount = { λ held. held.0 };

    ghost ordered = { Prim.search rules };

    fn numbered(number: usize) -> Edition {
        Edition(number)
    }
}

// The number that a firing goes by.
#[derive(Clone, Copy)]
pub struct FiringNumber(pub i32);

impl FiringNumber {
    pub const LEAST: i32 = 1;

    pub const GREATEST: i32 = 999_999_999;
}

impl Measure for FiringNumber {
    ghost use Rattle.quantity.specs.declared.sheet.TheConstants.FiringNumber.{LEAST as least, GREATEST as greatest};

    const LEAST: i32 = FiringNumber::LEAST;

    const GREATEST: i32 = FiringNumber::GREATEST;

    ghost LEAST = { least };

    ghost GREATEST = { greatest };

    ghost amount = { λ held. held.0 };

    ghost ordered = { Prim.search rules };

    fn of(units: i32) -> FiringNumber {
        FiringNumber(units)
    }
}

// How many stages a firing has.
#[derive(Clone, Copy)]
pub struct StageCount(pub usize);

impl StageCount {
    pub const LEAST: usize = 1;

    pub const GREATEST: usize = 12;
}

impl Count for StageCount {
    ghost use Rattle.quantity.specs.declared.sheet.TheConstants.StageCount.{LEAST as least, GREATEST as greatest};

    const LEAST: usize = StageCount::LEAST;

    const GREATEST: usize = StageCount::GREATEST;

    ghost LEAST = { least };

    ghost GREATEST = { greatest };

    ghost amount = { λ held. held.0 };

    ghost ordered = { Prim.search rules };

    fn numbered(number: usize) -> StageCount {
        StageCount(number)
    }
}

// How many lines `setter` a sheet has.
#[derive(Clone, Copy)]
pub struct SetterCount(pub usize);

impl SetterCount {
    pub const LEAST: usize = 0;

    pub const GREATEST: usize = 32;
}

impl Count for SetterCount {
    ghost use Rattle.quantity.specs.declared.sheet.TheConstants.SetterCount.{LEAST as least, GREATEST as greatest};

    const LEAST: usize = SetterCount::LEAST;

    const GREATEST: usize = SetterCount::GREATEST;

    ghost LEAST = { least };

    ghost GREATEST = { greatest };

    ghost amount = { λ held. held.0 };

    ghost ordered = { Prim.search rules };

    fn numbered(number: usize) -> SetterCount {
        SetterCount(number)
    }
}

// How many lines `part` a sheet has.
#[derive(Clone, Copy)]
pub struct PartCount(pub usize);

impl PartCount {
    pub const LEAST: usize = 0;

    pub const GREATEST: usize = 32;
}

impl Count for PartCount {
    ghost use Rattle.quantity.specs.declared.sheet.TheConstants.PartCount.{LEAST as least, GREATEST as greatest};

    const LEAST: usize = PartCount::LEAST;

    const GREATEST: usize = PartCount::GREATEST;

    ghost LEAST = { least };

    ghost GREATEST = { greatest };

    ghost amount = { λ held. held.0 };

    ghost ordered = { Prim.search rules };

    fn numbered(number: usize) -> PartCount {
        PartCount(number)
    }
}

// How many sections a kiln has.
#[derive(Clone, Copy)]
pub struct SectionCount(pub usize);

impl SectionCount {
    pub const LEAST: usize = 1;

    pub const GREATEST: usize = 12;
}

impl Count for SectionCount {
    ghost use Rattle.quantity.specs.declared.sheet.TheConstants.SectionCount.{LEAST as least, GREATEST as greatest};

    const LEAST: usize = SectionCount::LEAST;

    const GREATEST: usize = SectionCount::GREATEST;

    ghost LEAST = { least };

    ghost GREATEST = { greatest };

    ghost amount = { λ held. held.0 };

    ghost ordered = { Prim.search rules };

    fn numbered(number: usize) -> SectionCount {
        SectionCount(number)
    }
}

// How many lines `wall` a sheet has.
#[derive(Drop)]
pub struct WallCount(pub usize);

impl WallCount {
    pub const LEAST: usize = 0;

    pub const GREATEST: usize = 48;
}

impl Count for WallCount {
    ghost use Rattle.quantity.specs.declared.sheet.TheConstants.WallCount.{LEAST as least, GREATEST as greatest};

    const LEAST: usize = WallCount::LEAST;

    const GREATEST: usize = WallCount::GREATEST;

    ghost LEAST = { least };

    ghost GREATEST = { greatest };

    ghost amount = { λ held. held.0 };

    ghost ordered = { Prim.search rules };

    fn numbered(number: usize) -> WallCount {
        WallCount(number)
    }
}

// The mark that closes a sheet.
#[derive(Drop)]
pub struct Closing(pub usize);

impl Closing {
    pub const LEAST: usize = 1;

    pub const GREATEST: usize = 1;
}

impl Count for Closing {
    ghost use Rattle.quantity.specs.declared.sheet.TheConstants.Closing.{LEAST as least, GREATEST as greatest};

    const LEAST: usize = Closing::LEAST;

    const GREATEST: usize = Closing::GREATEST;

    ghost LEAST = { least };

    ghost GREATEST = { greatest };

    ghost amount = { λ held. held.0 };

    ghost ordered = { Prim.search rules };

    fn numbered(number: usize) -> Closing {
        Closing(number)
    }
}
