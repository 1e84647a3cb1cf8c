// The figures of a report, from the joules.
ghost use Rattle.std.specs.Prelude.{◌≡◌, pos, nat_abs, ◌*ℤ◌};
ghost use Rattle.arith.specs.Nearest.{nearest};
ghost use Rattle.sheet.specs.Firing.{Firing};
ghost use Rattle.formulas.specs.Report.{figures as figuresOf};
ghost use Rattle.report.specs.Figures.{Divides, Found};

use crate::{EFF1, EFF2, FIRING, FIRST_HEAT, LINES};
use arith::nearest;
use heat::{HEATS, Q1, USEFUL, WITHSET};
use quantity::mass::Product;
use quantity::sheet::FiringNumber;

// A heat in kilojoules per tonne of ware: joules over product kilograms, and the product is in tenths of one.
fn per_tonne(heat: i64, product: Product) -> i64
    requires { Divides 10 heat product.0 }
    ensures { result ≡ nearest (heat *ℤ pos 10) (nat_abs product.0) }
{
    nearest(heat * 10, product.0 as i64)
}

// A heat over the fuel's, in 0.01 %.
fn of_fuel(heat: i64, q1: i64) -> i64
    requires { Divides 10000 heat q1 }
    ensures { result ≡ nearest (heat *ℤ pos 10000) (nat_abs q1) }
{
    nearest(heat * 10_000, q1)
}

// The figures of a firing whose heats are found, in the report's order: its number, every heat per tonne, and the two efficiencies.
pub fn figures(number: FiringNumber, product: Product, heats: [i64; HEATS]) -> [i64; LINES]
    requires { (f : Firing) × Found f number.0 product.0 heats }
    ensures { (f : Firing) → Found f number.0 product.0 heats → result ≡ figuresOf f }
{
    let mut out = [0i64; LINES];
    out[FIRING] = number.0 as i64;
    for (i, heat) in heats.iter().enumerate() {
        out[i + FIRST_HEAT] = per_tonne(*heat, product);
    }
    out[EFF1] = of_fuel(heats[USEFUL], heats[Q1]);
    out[EFF2] = of_fuel(heats[WITHSET], heats[Q1]);
    out
}
