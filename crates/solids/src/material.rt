// Specific heat by table A.2, and the heat that a mass takes up.
ghost use Rattle.std.specs.Prelude.{◌≡◌, ◌^◌, ◌≤◌, ℤ, pos, ◌+ℤ◌, ◌*ℤ◌};
ghost use Rattle.std.specs.Int.{w64};
ghost use Rattle.std.proofs.Common.{SFits};
ghost use Rattle.sheet.specs.Shown.{stuff as stuffOf};
ghost use Rattle.formulas.specs.Rounding.{paper};
ghost use Rattle.formulas.specs.Formulas.{joule, specific_heat, sensible};
ghost use Rattle.formulas.specs.Figures.{Exact, Figure};
ghost use Rattle.formulas.specs.Sizes.{specific_heat_most, sensible_most};
ghost use Rattle.formulas.specs.Steps.{ProductFits, over};
ghost use Rattle.solids.specs.Steps.{RowIs, StraightFits, Heated, Warmed};

use formulas::Straight;
use formulas::rounding::Quotient;
use quantity::heat::{Joules, SpecificHeat};
use quantity::kiln::Material;
use quantity::mass::Kilos;
use quantity::temperature::{Degrees, Rise};
use sheet::Stuff;

// A specific heat, in 1e-7 kJ/(kg·°C).
#[derive(Drop)]
pub struct Capacity(pub i64);

// Table A.2 by material code, and at 19 and 20 the lines of corundum and opaque quartz above 800.0.
static TABLE_A2: [Straight; 21] = [
    Straight { a: 0, b: 0 },
    Straight { a: 84, b: 260 },
    Straight { a: 84, b: 260 },
    Straight { a: 42, b: 880 },
    Straight { a: 67, b: 167 },
    Straight { a: 67, b: 126 },
    Straight { a: 80, b: 330 },
    Straight { a: 94, b: 250 },
    Straight { a: 75, b: 150 },
    Straight { a: 77, b: 300 },
    Straight { a: 89, b: 420 },
    Straight { a: 63, b: 126 },
    Straight { a: 73, b: 376 },
    Straight { a: 96, b: 150 },
    Straight { a: 80, b: 334 },
    Straight { a: 84, b: 260 },
    Straight { a: 80, b: 293 },
    Straight { a: 89, b: 0 },
    Straight { a: 46, b: 0 },
    Straight { a: 80, b: 418 },
    Straight { a: 90, b: 167 },
];

// The line of table A.2 that holds for a material at a temperature.
fn row(material: Material, at: Degrees) -> usize
    requires { material.0 ≤ 18 }
    ensures { RowIs material.0 at.0 result }
{
    let code = material.0 as usize;
    // Asked before the code, for the compiler: docs/DECISIONS.md, "Nothing is guessed of a material".
    let low = at.0 <= 8000;
    match code {
        1 | 2 | 15 => 1,
        3 => { if low { 3 } else { 19 } }
        12 => { if low { 12 } else { 20 } }
        _ => code,
    }
}

// The specific heat along a straight line of the table.
fn along(straight: Straight, at: Degrees) -> Capacity
    requires { StraightFits straight.a straight.b at.0 }
    ensures { result.0 ≡ straight.a *ℤ pos 100000 +ℤ straight.b *ℤ at.0 }
{
    Capacity(straight.a as i64 * 100_000 + straight.b as i64 * at.0 as i64)
}

// The specific heat that the sheet gives.
fn given(c: SpecificHeat) -> Capacity
    requires { SFits w64 (c.0 *ℤ pos 1000) }
    ensures { result.0 ≡ c.0 *ℤ pos 1000 }
{
    Capacity(c.0 as i64 * 1000)
}

// The fuel's, `brought` of `burning`, has other quantities and other units: one function of numbers would take a kilogram for a cubic metre.
// The heat of a mass that grows warmer.
fn stored(mass: Kilos, c: Capacity, rise: Rise) -> Quotient
    requires { ProductFits mass.0 c.0 rise.0 }
    ensures { result ≡ over (mass.0 *ℤ c.0 *ℤ rise.0) (10 ^ 6) }
{
    Quotient(mass.0 as i64 * c.0 * rise.0, 1_000_000)
}

// The specific heat of a thing at a temperature.
fn specific_heat(stuff: Stuff, at: Degrees) -> Capacity
    requires { Heated (stuffOf stuff) at.0 }
    ensures { Exact specific_heat_most result.0 (specific_heat (stuffOf stuff) at.0) }
{
    let material = stuff.material;
    if material.0 == 0 {
        return given(stuff.c);
    }
    along(TABLE_A2[row(material, at)], at)
}

// m c (at − from), with c at the first of the two temperatures, in whole joules.
pub fn sensible(mass: Kilos, stuff: Stuff, at: Degrees, from: Degrees) -> Joules
    requires { Warmed mass.0 (stuffOf stuff) at.0 from.0 }
    ensures { Figure joule sensible_most result.0 (sensible paper mass.0 (stuffOf stuff) at.0 from.0) }
{
    let c = specific_heat(stuff, at);
    stored(mass, c, at.above(from)).joules()
}
