// The fuel: what its gases come to, and its heat.
#![tactic(auto)]

pub mod mixture;

ghost use Rattle.std.specs.Prelude.{◌≡◌, ◌^◌, ℤ, pos, ◌+ℤ◌, ◌*ℤ◌};
ghost use Rattle.sheet.specs.Firing.{Firing};
ghost use Rattle.sheet.specs.Block.{total_gas};
ghost use Rattle.formulas.specs.Rounding.{paper};
ghost use Rattle.formulas.specs.Formulas.{joule, gas_heat, q1};
ghost use Rattle.formulas.specs.Figures.{Figure};
ghost use Rattle.formulas.specs.Sizes.{q1_most, q2_most};
ghost use Rattle.formulas.specs.Steps.{ProductFits, over};
ghost use Rattle.burning.specs.Steps.{MixedFits, FuelIn, WarmFuelIn};

use formulas::rounding::Quotient;
use mixture::Warmth;
use quantity::gas::GasTotal;
use quantity::heat::{HeatingValue, Joules};
use quantity::temperature::{Degrees, Rise};

// The specific heat of the fuel at a temperature, in 1e-10 kJ/(m³·°C).
#[derive(Drop)]
pub struct MixedHeat(pub i64);

// The heat of burning.
pub fn q1(gas: GasTotal, heating: HeatingValue) -> Joules
    requires { FuelIn gas.0 heating.0 }
    ensures { (f : Firing) → total_gas f.stages ≡ gas.0 → f.fuel.heating ≡ heating.0 → Figure joule q1_most result.0 (q1 f paper) }
{
    Joules(gas.0 as i64 * heating.0 as i64 * 100)
}

// Formula 4, on a straight line between 0 and 100 °C.
fn mixed_heat(warmth: Warmth, at: Degrees) -> MixedHeat
    requires { MixedFits warmth.cold warmth.rise at.0 }
    ensures { result.0 ≡ warmth.cold *ℤ pos 1000 +ℤ warmth.rise *ℤ at.0 }
{
    MixedHeat(warmth.cold * 1000 + warmth.rise * at.0 as i64)
}

// Formula 2 before it is rounded.
fn brought(gas: GasTotal, c: MixedHeat, rise: Rise) -> Quotient
    requires { ProductFits gas.0 c.0 rise.0 }
    ensures { result ≡ over (gas.0 *ℤ c.0 *ℤ rise.0) (10 ^ 9) }
{
    Quotient(gas.0 as i64 * c.0 * rise.0, 1_000_000_000)
}

// The fuel's heat above the base temperature.
pub fn q2(gas: GasTotal, warmth: Warmth, at: Degrees, t: Degrees) -> Joules
    requires { WarmFuelIn gas.0 warmth.cold warmth.rise at.0 t.0 }
    ensures { Figure joule q2_most result.0 (gas_heat paper gas.0 (warmth.cold *ℤ pos 1000 +ℤ warmth.rise *ℤ at.0) at.0 t.0) }
{
    brought(gas, mixed_heat(warmth, at), at.above(t)).joules()
}
