// The lines `air`, `ware`, `water` and `clay`.
ghost use Rattle.std.specs.Prelude.{◌≡◌, []};
ghost use Rattle.std.proofs.Math.Option.{none};
ghost use Rattle.sheet.specs.Shown.{ware, water};
ghost use Rattle.document.specs.Schema.{plain};
ghost use Rattle.document.specs.Tests.{material-rule};
ghost use Rattle.document.specs.Document01.{ware_line, water_line, drying};
ghost use Rattle.document.specs.Reader.{read_line};
ghost use Rattle.document.specs.Rows.{ware_of, water_of};
ghost use Rattle.due.specs.Place.{Ready, After};
ghost use Rattle.due.specs.Taking.{from, Taken};
ghost use Rattle.document.specs.Entries.{paragraphs_of};
ghost use Rattle.due.specs.Said.{GroupRead};
ghost use Rattle.head.specs.Head.{drying_says};

use due::stuff::unsuited;
use due::{Heard, Place, line, measured_line, ruled};
use limits::{Checked, Count, Measure, Number};
use quantity::gas::Moisture;
use quantity::heat::SpecificHeat;
use quantity::kiln::Material;
use quantity::mass::Kilos;
use quantity::temperature::{Degrees, FlueTemperature};
use sheet::{FIELDS_MOST, Refusal, Stuff, Ware, Water};

// The ware from the five numbers of its line.
fn ware_of(v: [Number; FIELDS_MOST]) -> Checked<Ware>
    ensures { Taken ware_line.fields (from 0 5 v) result.fault (λ zs. ware result.value ≡ ware_of (plain zs)) }
{
    let green = Kilos::checked(v[0], 0, 1);
    let entry = Degrees::checked(v[1], green.fault, 2);
    let highest = Degrees::checked(v[2], entry.fault, 3);
    let material = Material::checked(v[3], highest.fault, 4);
    let c = SpecificHeat::checked(v[4], material.fault, 5);
    Checked {
        value: Ware {
            green: green.value,
            entry: entry.value,
            highest: highest.value,
            stuff: Stuff {
                material: material.value,
                c: c.value,
            },
        },
        fault: c.fault,
    }
}

// One line `ware`.
fn ware_line(s: &[u8], p: Place) -> Heard<Ware>
    requires { Ready s.now p }
    ensures { After s.now p (read_line ware_line (material-rule 3 [])) result.place (λ row. ware result.said ≡ ware_of row) }
{
    let ware = line(s, p, b"ware=", 5, ware_of);
    Heard {
        place: ruled(
            p.line,
            ware.place,
            unsuited(ware.said.stuff),
            Refusal::Material(4),
        ),
        said: ware.said,
    }
}

// The waters from the three numbers of their line.
fn water_of(v: [Number; FIELDS_MOST]) -> Checked<Water>
    ensures { Taken water_line.fields (from 0 3 v) result.fault (λ zs. water result.value ≡ water_of (plain zs)) }
{
    let adsorbed = Kilos::checked(v[0], 0, 1);
    let crystal = Kilos::checked(v[1], adsorbed.fault, 2);
    let flue = FlueTemperature::checked(v[2], crystal.fault, 3);
    Checked {
        value: Water {
            adsorbed: adsorbed.value,
            crystal: crystal.value,
            flue: flue.value,
        },
        fault: flue.fault,
    }
}

// What is left of a line behind `due::line` has the line's own promise.
// One line `water`.
fn water_line(s: &[u8], p: Place) -> Heard<Water>
    requires { Ready s.now p }
    ensures { After s.now p (read_line water_line (λ row. none)) result.place (λ row. water result.said ≡ water_of row) }
{
    line(s, p, b"water=", 3, water_of)
}

#[derive(Drop)]
pub struct Drying {
    pub moisture: Moisture,
    pub ware: Ware,
    pub water: Water,
    pub clay: Kilos,
}

// The lines `air` to `clay`.
pub fn drying_lines(s: &[u8], p: Place) -> Heard<Drying>
    requires { Ready s.now p }
    ensures { GroupRead s.now p (paragraphs_of drying) result.place (drying_says result.said) }
{
    let moisture = measured_line::<Moisture>(s, p, b"air=");
    let ware = ware_line(s, moisture.place);
    let water = water_line(s, ware.place);
    let clay = measured_line::<Kilos>(s, water.place, b"clay=");
    Heard {
        place: clay.place,
        said: Drying {
            moisture: moisture.said,
            ware: ware.said,
            water: water.said,
            clay: clay.said,
        },
    }
}
