// The heat of the ware's water, twice, and of its clay.
ghost use Rattle.std.specs.Prelude.{◌≡◌, ℤ, pos, ◌+ℤ◌, ◌-ℤ◌, ◌*ℤ◌};
ghost use Rattle.sheet.specs.Firing.{Firing};
ghost use Rattle.sheet.specs.Shown.{water as water_of};
ghost use Rattle.sheet.specs.Quantities.{mass};
ghost use Rattle.document.specs.Lawful.{In};
ghost use Rattle.formulas.specs.Rounding.{paper};
ghost use Rattle.formulas.specs.Formulas.{joule, x2, x3, water_heat};
ghost use Rattle.formulas.specs.Figures.{Figure};
ghost use Rattle.formulas.specs.Sizes.{x2_most, x3_most, water_heat_most};
ghost use Rattle.formulas.specs.Steps.{over};
ghost use Rattle.solids.specs.Steps.{SteamFits, BoiledFits, TwoWatersFits, WetIn, SoakedIn};

use formulas::rounding::Quotient;
use quantity::heat::Joules;
use quantity::mass::Kilos;
use quantity::temperature::{Degrees, Rise};
use sheet::Water;

// The heat of boiling and of the steam, in 0.001 kJ per kilogram.
#[derive(Drop)]
pub struct Boiling(pub i64);

// Formula 14: both waters as steam in the flue.
fn steam(water: Water, rise: Rise) -> Quotient
    requires { SteamFits water.adsorbed.0 water.crystal.0 rise.0 }
    ensures { result ≡ over ((water.adsorbed.0 +ℤ water.crystal.0) *ℤ (pos 2490000 +ℤ pos 193 *ℤ rise.0)) 10 }
{
    Quotient(
        (water.adsorbed.0 as i64 + water.crystal.0 as i64) * (2_490_000 + 193 * rise.0),
        10,
    )
}

// The heat that leaves with the water.
pub fn x2(water: Water, t: Degrees) -> Joules
    requires { WetIn (water_of water) t.0 }
    ensures { (f : Firing) → f.water ≡ water_of water → f.ambient ≡ t.0 → Figure joule x2_most result.0 (x2 f paper) }
{
    steam(water, Degrees::from(water.flue).above(t)).joules()
}

// The heat that breaks the clay down.
pub fn x3(clay: Kilos) -> Joules
    requires { In mass clay.0 }
    ensures { (f : Firing) → f.clay ≡ clay.0 → Figure joule x3_most result.0 (x3 f paper) }
{
    Joules(clay.0 as i64 * 108_800)
}

// Formula 33 for a kilogram: to 100 °C, to steam, and the steam on by so many °C.
fn boiled(entry: Degrees, on: i64) -> Boiling
    requires { BoiledFits entry.0 on }
    ensures { result.0 ≡ (pos 1000 -ℤ entry.0) *ℤ pos 418 +ℤ (pos 2260000 +ℤ on *ℤ pos 1930) }
{
    Boiling((1000 - entry.0 as i64) * 418 + (2_260_000 + on * 1930))
}

// Both waters, each with its own heat of boiling.
fn two_waters(water: Water, adsorbed: Boiling, crystal: Boiling) -> Quotient
    requires { TwoWatersFits water.adsorbed.0 adsorbed.0 water.crystal.0 crystal.0 }
    ensures { result ≡ over (water.adsorbed.0 *ℤ adsorbed.0 +ℤ water.crystal.0 *ℤ crystal.0) 10 }
{
    Quotient(
        water.adsorbed.0 as i64 * adsorbed.0 + water.crystal.0 as i64 * crystal.0,
        10,
    )
}

// The part of the useful heat that dries the ware.
pub fn water_heat(water: Water, entry: Degrees) -> Joules
    requires { SoakedIn (water_of water) entry.0 }
    ensures { (f : Firing) → f.water ≡ water_of water → f.ware.entry ≡ entry.0 → Figure joule water_heat_most result.0 (water_heat f paper) }
{
    two_waters(water, boiled(entry, 25), boiled(entry, 450)).joules()
}
