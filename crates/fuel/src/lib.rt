// The paragraph of the fuel: the lines `fuel` and `gas`.
#![tactic(auto)]

mod gas;

ghost use Rattle.std.specs.Prelude.{◌≡◌};
ghost use Rattle.std.proofs.Math.Option.{none};
ghost use Rattle.sheet.specs.Shown.{fuel};
ghost use Rattle.document.specs.Schema.{plain};
ghost use Rattle.document.specs.Document01.{fuel_line, fuelling};
ghost use Rattle.document.specs.Rows.{fuel_of};
ghost use Rattle.due.specs.Taking.{from, Taken};
ghost use Rattle.fuel.specs.Fuel.{fuelling_says};
ghost use Rattle.document.specs.Reader.{read_line};
ghost use Rattle.due.specs.Place.{Ready, After};
ghost use Rattle.document.specs.Entries.{paragraphs_of};
ghost use Rattle.due.specs.Said.{GroupRead};

use crate::gas::gas_line;
use due::{Heard, Place, line};
use limits::{Checked, Measure, Number};
use quantity::gas::Share;
use quantity::heat::HeatingValue;
use quantity::temperature::FuelTemperature;
use sheet::{FIELDS_MOST, Fuel, GASES};

// The fuel from the two numbers of its line.
fn fuel_of(v: [Number; FIELDS_MOST]) -> Checked<Fuel>
    ensures { Taken fuel_line.fields (from 0 2 v) result.fault (λ zs. fuel result.value ≡ fuel_of (plain zs)) }
{
    let heating = HeatingValue::checked(v[0], 0, 1);
    let temperature = FuelTemperature::checked(v[1], heating.fault, 2);
    Checked {
        value: Fuel {
            heating: heating.value,
            temperature: temperature.value,
        },
        fault: temperature.fault,
    }
}

// What the lines of several numbers without a rule have in common is `due::line`; what is left has the line's own promise.
// One line `fuel`.
fn fuel_line(s: &[u8], p: Place) -> Heard<Fuel>
    requires { Ready s.now p }
    ensures { After s.now p (read_line fuel_line (λ row. none)) result.place (λ row. fuel result.said ≡ fuel_of row) }
{
    line(s, p, b"fuel=", 2, fuel_of)
}

#[derive(Drop)]
pub struct Fuelling {
    pub fuel: Fuel,
    pub gas: [Share; GASES],
}

// The lines `fuel` and `gas`.
pub fn fuelling_lines(s: &[u8], p: Place) -> Heard<Fuelling>
    requires { Ready s.now p }
    ensures { GroupRead s.now p (paragraphs_of fuelling) result.place (fuelling_says result.said) }
{
    let fuel = fuel_line(s, p);
    let gas = gas_line(s, fuel.place);
    let shares = gas.said;
    Heard {
        place: gas.place,
        said: Fuelling {
            fuel: fuel.said,
            gas: shares,
        },
    }
}
