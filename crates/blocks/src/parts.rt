// The parts of the kiln body.
ghost use Rattle.std.specs.Prelude.{◌≡◌, []};
ghost use Rattle.sheet.specs.Shown.{part};
ghost use Rattle.document.specs.Tests.{material-rule};
ghost use Rattle.document.specs.Document01.{part_line};
ghost use Rattle.document.specs.Reader.{read_line};
ghost use Rattle.document.specs.Rows.{part_of};
ghost use Rattle.due.specs.Place.{Ready, After};
ghost use Rattle.document.specs.Schema.{plain};
ghost use Rattle.due.specs.Taking.{from, Taken};
ghost use Rattle.blocks.specs.Loads.{PartsRead};

use due::stuff::unsuited;
use due::{Heard, Place, counted_line, line, rows, ruled};
use limits::{Checked, Count, Measure, Number};
use quantity::heat::SpecificHeat;
use quantity::kiln::Material;
use quantity::mass::Kilos;
use quantity::sheet::PartCount;
use quantity::temperature::Degrees;
use sheet::{FIELDS_MOST, Part, Parts, Refusal, Stuff};

// A part of the kiln body from the five numbers of its line.
fn part_of(v: [Number; FIELDS_MOST]) -> Checked<Part>
    ensures { Taken part_line.fields (from 0 5 v) result.fault (λ zs. part result.value ≡ part_of (plain zs)) }
{
    let mass = Kilos::checked(v[0], 0, 1);
    let material = Material::checked(v[1], mass.fault, 2);
    let c = SpecificHeat::checked(v[2], material.fault, 3);
    let before = Degrees::checked(v[3], c.fault, 4);
    let firing = Degrees::checked(v[4], before.fault, 5);
    Checked {
        value: Part {
            mass: mass.value,
            stuff: Stuff {
                material: material.value,
                c: c.value,
            },
            before: before.value,
            firing: firing.value,
        },
        fault: firing.fault,
    }
}

// With those of ware and setters three lines of code each: one function of the three would have the key, the count, the field of the material and two functions to be given.
// One line `part`.
fn part_line(s: &[u8], p: Place) -> Heard<Part>
    requires { Ready s.now p }
    ensures { After s.now p (read_line part_line (material-rule 1 [])) result.place (λ row. part result.said ≡ part_of row) }
{
    let part = line(s, p, b"part=", 5, part_of);
    Heard {
        place: ruled(
            p.line,
            part.place,
            unsuited(part.said.stuff),
            Refusal::Material(2),
        ),
        said: part.said,
    }
}

// The setters' block by other names: what both do stands in `due`, and the struct that each fills names its own limit.
// The line `parts` and its lines `part`.
pub fn part_block(s: &[u8], p: Place) -> Heard<Parts>
    requires { Ready s.now p }
    ensures { PartsRead s.now p result }
{
    let count = counted_line::<PartCount>(s, p, b"parts=");
    let read = rows(
        count.place,
        count.said.0,
        sheet::blank::part(),
        |q| part_line(s, q),
    );
    let lines = read.said;
    Heard {
        place: read.place,
        said: Parts {
            count: count.said,
            lines,
        },
    }
}
