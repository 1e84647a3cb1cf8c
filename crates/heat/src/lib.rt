// The balance of a firing, from a sheet to joules.
#![tactic(auto)]

ghost use Rattle.std.specs.Prelude.{◌≡◌};
ghost use Rattle.sheet.specs.Firing.{Firing};
ghost use Rattle.formulas.specs.Formulas.{q1, q2};
ghost use Rattle.formulas.specs.Sizes.{q1_most, q2_most};
ghost use Rattle.heat.specs.Balance.{Kept, Heat, Heated, Balanced};

use burning::mixture::{burning_of, warmth_of};
use burning::{q1, q2};
use flue::flue_heats;
use limits::Measure;
use quantity::gas::GasTotal;
use quantity::heat::Joules;
use quantity::temperature::Degrees;
use sheet::Sheet;
use sheet::block::total_gas;
use solids::records::{part_heats, q5, setter_heats, x1};
use solids::water::{water_heat, x2, x3};
use surface::x9;

// How many heats a balance has.
pub const HEATS: usize = 17;

// Where in a balance the heat of the fuel lies, which an efficiency is a share of. Places and no kinds: `balance` promises its heats by place (`Balanced`).
pub const Q1: usize = 0;

// Where the useful heat lies.
pub const USEFUL: usize = HEATS - 2;

// Where the useful heat lies, that of the setters with it.
pub const WITHSET: usize = HEATS - 1;

// The heat of the fuel: of burning, and above the base temperature.
#[derive(Drop)]
pub struct FuelHeat {
    pub q1: Joules,
    pub q2: Joules,
}

// The heats that a sheet gives; `water` is that of the ware's water by formula 33.
#[derive(Drop)]
pub struct Heats {
    pub q1: Joules,
    pub q2: Joules,
    pub q3: Joules,
    pub q5: Joules,
    pub q8: Joules,
    pub x1: Joules,
    pub x2: Joules,
    pub x3: Joules,
    pub x5: Joules,
    pub x7: Joules,
    pub x8: Joules,
    pub x9: Joules,
    pub x10: Joules,
    pub water: Joules,
}

// What the fuel brings.
fn fuel_heat(sheet: Sheet) -> FuelHeat
    requires { (f : Firing) × Kept sheet f }
    ensures { (f : Firing) → Kept sheet f → Heat q1 f q1_most result.q1.0 × Heat q2 f q2_most result.q2.0 }
{
    let head = sheet.head;
    let fuel = head.fuel;
    let shares = head.gas;
    let total = GasTotal::checked(total_gas(sheet.stages), 0, 1);
    let gas = total.value;
    let warmth = warmth_of(shares);
    let at = Degrees::from(fuel.temperature);
    let t = Degrees::from(head.ambient);
    FuelHeat {
        q1: q1(gas, fuel.heating),
        q2: q2(gas, warmth, at, t),
    }
}

// Every heat of a sheet, each by its function.
fn heats_of(sheet: Sheet) -> Heats
    requires { (f : Firing) × Kept sheet f }
    ensures { (f : Firing) → Kept sheet f → Heated f result }
{
    let head = sheet.head;
    let ware = head.ware;
    let shares = head.gas;
    let readings = sheet.readings;
    let t = Degrees::from(head.ambient);
    let fuel = fuel_heat(sheet);
    let setters = setter_heats(sheet.setters, t, ware.highest);
    let parts = part_heats(sheet.parts, t);
    let flue = flue_heats(burning_of(shares), head.moisture, sheet.stages, t);
    let q5 = q5(head.ware, t);
    let x1 = x1(head.product, head.ware);
    let x2 = x2(head.water, t);
    let x3 = x3(head.clay);
    let x9 = x9(readings, sheet.sections, sheet.stages);
    let water = water_heat(head.water, ware.entry);
    let q1 = fuel.q1;
    let q2 = fuel.q2;
    let q3 = setters.q3;
    let q8 = parts.q8;
    let x5 = setters.x5;
    let x7 = flue.x7;
    let x8 = flue.x8;
    let x10 = parts.x10;
    Heats {
        q1,
        q2,
        q3,
        q5,
        q8,
        x1,
        x2,
        x3,
        x5,
        x7,
        x8,
        x9,
        x10,
        water,
    }
}

// The balance of a firing: its heats in joules, each in the place of its line in the report.
pub fn balance(sheet: Sheet) -> [i64; HEATS]
    requires { (f : Firing) × Kept sheet f }
    ensures { (f : Firing) → Kept sheet f → Balanced f result }
{
    let h = heats_of(sheet);
    let income = h.q1.plus(h.q2).plus(h.q3).plus(h.q5).plus(h.q8);
    let solids = h.x1.plus(h.x2).plus(h.x3).plus(h.x5);
    let spent = solids.plus(h.x7).plus(h.x8).plus(h.x9).plus(h.x10);
    let x11 = income.minus(spent);
    let useful = h.water.plus(h.x3).plus(h.x1);
    let withset = useful.plus(h.x5);
    [
        h.q1.0, h.q2.0, h.q3.0, h.q5.0, h.q8.0, income.0, h.x1.0, h.x2.0, h.x3.0, h.x5.0, h.x7.0, h
            .x8
            .0, h.x9.0, h.x10.0, x11.0, useful.0, withset.0,
    ]
}
