// One line `wall`.
ghost use Rattle.std.specs.Prelude.{◌≡◌};
ghost use Rattle.std.specs.Int.Signed.{lt_z};
ghost use Rattle.sheet.specs.Shown.{measured};
ghost use Rattle.document.specs.Schema.{plain};
ghost use Rattle.document.specs.Document01.{wall_line};
ghost use Rattle.document.specs.Rows.{wall_of};
ghost use Rattle.due.specs.Place.{Ready};
ghost use Rattle.due.specs.Taking.{from, Taken};
ghost use Rattle.walls.specs.Walls.{WallAfter, wall};

use due::{Heard, Place, line};
use limits::{Checked, Count, Measure, Number};
use quantity::kiln::{SectionNumber, StageNumber};
use quantity::temperature::{NearAir, SurfaceTemperature};
use sheet::{FIELDS_MOST, Reading};

// A wall reading as its line gives it.
#[derive(Clone, Copy)]
pub struct Wall {
    pub section: SectionNumber,
    pub stage: StageNumber,
    pub surface: SurfaceTemperature,
    pub air: NearAir,
}

// A wall reading from the four numbers of its line.
fn wall_of(v: [Number; FIELDS_MOST]) -> Checked<Wall>
    ensures { Taken wall_line.fields (from 0 4 v) result.fault (λ zs. wall result.value ≡ wall_of (plain zs)) }
{
    let section = SectionNumber::checked(v[0], 0, 1);
    let stage = StageNumber::checked(v[1], section.fault, 2);
    let surface = SurfaceTemperature::checked(v[2], stage.fault, 3);
    let air = NearAir::checked(v[3], surface.fault, 4);
    Checked {
        value: Wall {
            section: section.value,
            stage: stage.value,
            surface: surface.value,
            air: air.value,
        },
        fault: air.fault,
    }
}

// One line `wall`, before its rules.
pub fn wall_line(s: &[u8], p: Place) -> Heard<Wall>
    requires { Ready s.now p }
    ensures { WallAfter s.now p result }
{
    line(s, p, b"wall=", 4, wall_of)
}

// Whether the surface of a section is colder than the air near it.
pub fn colder(surface: SurfaceTemperature, air: NearAir) -> bool
    ensures { result ≡ lt_z surface.0 air.0 }
{
    surface.0 < air.0
}

// What a wall line says of its cell.
pub fn reading_of(w: Wall) -> Reading
    ensures { result ≡ measured (wall w) }
{
    Reading {
        surface: w.surface,
        air: w.air,
    }
}
