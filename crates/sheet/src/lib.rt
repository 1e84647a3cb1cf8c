// A firing as its sheet gives it, line by line, and the reasons for which a sheet is refused.
#![tactic(auto)]

pub mod blank;
pub mod block;

ghost use Rattle.std.specs.Prelude.{◌≡◌};
ghost use Rattle.sheet.specs.Refusals.{number, field};

use quantity::gas::{CarbonMonoxide, CubicMetres, Dioxides, ExcessAir, Moisture, Oxygen, Share};
use quantity::heat::{HeatingValue, SpecificHeat};
use quantity::kiln::{Area, Material, Minutes, SectionNumber, SectionPlace};
use quantity::mass::{Kilos, Product};
use quantity::sheet::{Edition, FiringNumber, PartCount, SectionCount, SetterCount, StageCount};
use quantity::temperature::{
    Ambient, Degrees, FlueTemperature, FuelTemperature, NearAir, SurfaceTemperature,
};

// How many gases the shares of a fuel tell of.
pub const GASES: usize = 13;

// How many fields a line has at most: the widest is the line `gas`.
pub const FIELDS_MOST: usize = GASES;

// How many bytes a sheet has at most.
pub const SHEET_MOST: usize = 16_384;

// Why a sheet is refused. A field counts from 1.
#[derive(Clone, Copy)]
pub enum Refusal {
    TooLong,
    NoLineFeed,
    WrongKey,
    WrongCount,
    NotANumber(usize),
    Surplus,
    Outside(usize),
    Material(usize),
    Shares,
    SectionTwice,
    NoSuchWall,
    ReadTwice,
    Missing,
    Colder,
    GasTotal,
    NoRoom,
    Analysis,
}

// What a thing is made of; c counts for material 0 only.
#[derive(Clone, Copy)]
pub struct Stuff {
    pub material: Material,
    pub c: SpecificHeat,
}

#[derive(Clone, Copy)]
pub struct Fuel {
    pub heating: HeatingValue,
    pub temperature: FuelTemperature,
}

#[derive(Clone, Copy)]
pub struct Ware {
    pub green: Kilos,
    pub entry: Degrees,
    pub highest: Degrees,
    pub stuff: Stuff,
}

#[derive(Clone, Copy)]
pub struct Water {
    pub adsorbed: Kilos,
    pub crystal: Kilos,
    pub flue: FlueTemperature,
}

// What an analyser says of the dry flue besides CO.
#[derive(Clone, Copy)]
pub struct Analysis {
    pub pair: Dioxides,
    pub oxygen: Oxygen,
}

// What was read in a stage, with the analysis where the sheet has one.
#[derive(Clone, Copy)]
pub struct Stage {
    pub gas: CubicMetres,
    pub excess: ExcessAir,
    pub flue: FlueTemperature,
    pub co: CarbonMonoxide,
    pub analysis: Option<Analysis>,
    pub minutes: Minutes,
}

#[derive(Clone, Copy)]
pub struct Setter {
    pub mass: Kilos,
    pub entry: Degrees,
    pub stuff: Stuff,
}

#[derive(Clone, Copy)]
pub struct Part {
    pub mass: Kilos,
    pub stuff: Stuff,
    pub before: Degrees,
    pub firing: Degrees,
}

#[derive(Clone, Copy)]
pub struct Section {
    pub number: SectionNumber,
    pub place: SectionPlace,
    pub area: Area,
}

// What was measured at a section in a stage.
#[derive(Clone, Copy)]
pub struct Reading {
    pub surface: SurfaceTemperature,
    pub air: NearAir,
}

// What was measured at a section, stage by stage, if it was.
#[derive(Clone, Copy)]
pub struct SectionReadings {
    pub stages: [Option<Reading>; StageCount::GREATEST],
}

// The lines above the stages.
#[derive(Clone, Copy)]
pub struct Head {
    pub edition: Edition,
    pub firing: FiringNumber,
    pub product: Product,
    pub ambient: Ambient,
    pub fuel: Fuel,
    pub gas: [Share; GASES],
    pub moisture: Moisture,
    pub ware: Ware,
    pub water: Water,
    pub clay: Kilos,
}

// Four structs and not one with its length as a parameter: the language computes no such argument, and a limit is written once.
// A block: how many lines it has, and the lines, of which those beyond the count mean nothing.
#[derive(Clone, Copy)]
pub struct Stages {
    pub count: StageCount,
    pub lines: [Stage; StageCount::GREATEST],
}

#[derive(Clone, Copy)]
pub struct Setters {
    pub count: SetterCount,
    pub lines: [Setter; SetterCount::GREATEST],
}

#[derive(Clone, Copy)]
pub struct Parts {
    pub count: PartCount,
    pub lines: [Part; PartCount::GREATEST],
}

#[derive(Clone, Copy)]
pub struct Sections {
    pub count: SectionCount,
    pub lines: [Section; SectionCount::GREATEST],
}

// The readings stand by section and stage: that of the i-th section in the j-th stage at readings[i].stages[j], both from 0.
#[derive(Clone, Copy)]
pub struct Sheet {
    pub head: Head,
    pub stages: Stages,
    pub setters: Setters,
    pub parts: Parts,
    pub sections: Sections,
    pub readings: [SectionReadings; SectionCount::GREATEST],
}

// The number of a refusal.
pub fn refusal_number(refusal: Refusal) -> usize
    ensures { result ≡ number refusal }
{
    match refusal {
        Refusal::TooLong => 1,
        Refusal::NoLineFeed => 13,
        Refusal::WrongKey => 2,
        Refusal::WrongCount => 2,
        Refusal::NotANumber(_) => 12,
        Refusal::Surplus => 13,
        Refusal::Outside(_) => 3,
        Refusal::Material(_) => 4,
        Refusal::Shares => 5,
        Refusal::SectionTwice => 6,
        Refusal::NoSuchWall => 6,
        Refusal::ReadTwice => 7,
        Refusal::Missing => 8,
        Refusal::Colder => 9,
        Refusal::GasTotal => 10,
        Refusal::NoRoom => 11,
        Refusal::Analysis => 14,
    }
}

// The field that a refusal names; 0 where it means the whole line, or the whole sheet.
pub fn refusal_field(refusal: Refusal) -> usize
    ensures { result ≡ field refusal }
{
    match refusal {
        Refusal::TooLong => 0,
        Refusal::NoLineFeed => 0,
        Refusal::WrongKey => 0,
        Refusal::WrongCount => 0,
        Refusal::NotANumber(i) => i,
        Refusal::Surplus => 0,
        Refusal::Outside(i) => i,
        Refusal::Material(i) => i,
        Refusal::Shares => 0,
        Refusal::SectionTwice => 0,
        Refusal::NoSuchWall => 0,
        Refusal::ReadTwice => 0,
        Refusal::Missing => 0,
        Refusal::Colder => 0,
        Refusal::GasTotal => 0,
        Refusal::NoRoom => 0,
        Refusal::Analysis => 0,
    }
}
