// What stands in a struct where nothing was read: 0 in every field, or the least of its quantity where that is above 0. So a quantity is
// never outside its limits.
ghost use Rattle.std.specs.Prelude.{◌≡◌};
ghost use Rattle.sheet.specs.Shown.{unread, unread_section};
ghost use Rattle.sheet.specs.Blank.{no_analysis, blank_stage, blank_setter, blank_part, blank_section, blank_head, blank_sheet};

use crate::{
    Analysis, Fuel, GASES, Head, Part, Parts, Reading, Section, SectionReadings, Sections, Setter,
    Setters, Sheet, Stage, Stages, Stuff, Ware, Water,
};
use quantity::gas::{CarbonMonoxide, CubicMetres, ExcessAir, Moisture, Share};
use quantity::heat::{HeatingValue, SpecificHeat};
use quantity::kiln::{Area, Material, Minutes, SectionNumber, SectionPlace};
use quantity::mass::{Kilos, Product};
use quantity::sheet::{Edition, FiringNumber, PartCount, SectionCount, SetterCount, StageCount};
use quantity::temperature::{Ambient, Degrees, FlueTemperature, FuelTemperature};

// A flue that was not analysed.
pub fn analysis() -> Option<Analysis>
    ensures { result ≡ no_analysis }
{
    None // so the flue is worked with 1.384
}

// A stage that was not read.
pub fn stage() -> Stage
    ensures { result ≡ blank_stage }
{
    Stage {
        gas: CubicMetres(0),
        excess: ExcessAir(ExcessAir::LEAST),
        flue: FlueTemperature(0),
        co: CarbonMonoxide(0),
        analysis: analysis(),
        minutes: Minutes(Minutes::LEAST as i16),
    }
}

// A setter that was not read.
pub fn setter() -> Setter
    ensures { result ≡ blank_setter }
{
    Setter {
        mass: Kilos(0),
        entry: Degrees(0),
        stuff: Stuff {
            material: Material(0),
            c: SpecificHeat(0),
        },
    }
}

// A part that was not read.
pub fn part() -> Part
    ensures { result ≡ blank_part }
{
    Part {
        mass: Kilos(0),
        stuff: Stuff {
            material: Material(0),
            c: SpecificHeat(0),
        },
        before: Degrees(0),
        firing: Degrees(0),
    }
}

// A section that was not read.
pub fn section() -> Section
    ensures { result ≡ blank_section }
{
    Section {
        number: SectionNumber(SectionNumber::LEAST),
        place: SectionPlace(SectionPlace::LEAST),
        area: Area(Area::LEAST),
    }
}

// A cell without a reading.
pub fn reading() -> Option<Reading>
    ensures { result ≡ unread }
{
    None
}

// A section without a reading in any stage.
pub fn section_readings() -> SectionReadings
    ensures { result ≡ unread_section }
{
    SectionReadings {
        stages: [reading(); StageCount::GREATEST],
    }
}

// The lines above the stages, none of them read.
fn head() -> Head
    ensures { result ≡ blank_head }
{
    Head {
        edition: Edition(Edition::LEAST),
        firing: FiringNumber(FiringNumber::LEAST),
        product: Product(Product::LEAST),
        ambient: Ambient(0),
        fuel: Fuel {
            heating: HeatingValue(HeatingValue::LEAST),
            temperature: FuelTemperature(0),
        },
        gas: [Share(0); GASES],
        moisture: Moisture(0),
        ware: Ware {
            green: Kilos(0),
            entry: Degrees(0),
            highest: Degrees(0),
            stuff: Stuff {
                material: Material(0),
                c: SpecificHeat(0),
            },
        },
        water: Water {
            adsorbed: Kilos(0),
            crystal: Kilos(0),
            flue: FlueTemperature(0),
        },
        clay: Kilos(0),
    }
}

// A sheet that was not read.
pub fn sheet() -> Sheet
    ensures { result ≡ blank_sheet }
{
    Sheet {
        head: head(),
        stages: Stages {
            count: StageCount(StageCount::LEAST),
            lines: [stage(); StageCount::GREATEST],
        },
        setters: Setters {
            count: SetterCount(0),
            lines: [setter(); SetterCount::GREATEST],
        },
        parts: Parts {
            count: PartCount(0),
            lines: [part(); PartCount::GREATEST],
        },
        sections: Sections {
            count: SectionCount(SectionCount::LEAST),
            lines: [section(); SectionCount::GREATEST],
        },
        readings: [section_readings(); SectionCount::GREATEST],
    }
}
