// The setters.
ghost use Rattle.std.specs.Prelude.{◌≡◌, []};
ghost use Rattle.sheet.specs.Shown.{setter};
ghost use Rattle.document.specs.Tests.{material-rule};
ghost use Rattle.document.specs.Document01.{setter_line};
ghost use Rattle.document.specs.Reader.{read_line};
ghost use Rattle.document.specs.Rows.{setter_of};
ghost use Rattle.due.specs.Place.{Ready, After};
ghost use Rattle.document.specs.Schema.{plain};
ghost use Rattle.due.specs.Taking.{from, Taken};
ghost use Rattle.blocks.specs.Loads.{SettersRead};

use due::stuff::unsuited;
use due::{Heard, Place, counted_line, line, rows, ruled};
use limits::{Checked, Count, Measure, Number};
use quantity::heat::SpecificHeat;
use quantity::kiln::Material;
use quantity::mass::Kilos;
use quantity::sheet::SetterCount;
use quantity::temperature::Degrees;
use sheet::{FIELDS_MOST, Refusal, Setter, Setters, Stuff};

// A setter from the four numbers of its line.
fn setter_of(v: [Number; FIELDS_MOST]) -> Checked<Setter>
    ensures { Taken setter_line.fields (from 0 4 v) result.fault (λ zs. setter result.value ≡ setter_of (plain zs)) }
{
    let mass = Kilos::checked(v[0], 0, 1);
    let entry = Degrees::checked(v[1], mass.fault, 2);
    let material = Material::checked(v[2], entry.fault, 3);
    let c = SpecificHeat::checked(v[3], material.fault, 4);
    Checked {
        value: Setter {
            mass: mass.value,
            entry: entry.value,
            stuff: Stuff {
                material: material.value,
                c: c.value,
            },
        },
        fault: c.fault,
    }
}

// With those of ware and parts three lines of code each: see `part_line`.
// One line `setter`.
fn setter_line(s: &[u8], p: Place) -> Heard<Setter>
    requires { Ready s.now p }
    ensures { After s.now p (read_line setter_line (material-rule 2 [])) result.place (λ row. setter result.said ≡ setter_of row) }
{
    let setter = line(s, p, b"setter=", 4, setter_of);
    Heard {
        place: ruled(
            p.line,
            setter.place,
            unsuited(setter.said.stuff),
            Refusal::Material(3),
        ),
        said: setter.said,
    }
}

// The line `setters` and its lines `setter`.
pub fn setter_block(s: &[u8], p: Place) -> Heard<Setters>
    requires { Ready s.now p }
    ensures { SettersRead s.now p result }
{
    let count = counted_line::<SetterCount>(s, p, b"setters=");
    let read = rows(
        count.place,
        count.said.0,
        sheet::blank::setter(),
        |q| setter_line(s, q),
    );
    let lines = read.said;
    Heard {
        place: read.place,
        said: Setters {
            count: count.said,
            lines,
        },
    }
}
