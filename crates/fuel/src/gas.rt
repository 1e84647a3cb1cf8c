// The line `gas` and rule 5 on its shares.
ghost use Rattle.std.specs.Prelude.{◌≡◌, pos, nat_abs, [], not, ◌&&◌, ◌≤◌};
ghost use Rattle.std.specs.Int.Signed.{lt_z};
ghost use Rattle.sheet.specs.Shown.{same};
ghost use Rattle.sheet.specs.Quantities.{gases};
ghost use Rattle.document.specs.Document01.{gas_line};
ghost use Rattle.fuel.specs.Fuel.{shares};
ghost use Rattle.sheet.specs.Block.{sum};
ghost use Rattle.document.specs.Tests.{weigh, air_weights, gas-rule};
ghost use Rattle.document.specs.Reader.{read_line};
ghost use Rattle.document.specs.Rules.{Every};
ghost use Rattle.due.specs.Place.{Ready, After};
ghost use Rattle.due.specs.Taking.{from, Taken};

use due::{Heard, Place, line, ruled};
use limits::{Checked, Measure, Number};
use quantity::gas::Share;
use sheet::{FIELDS_MOST, GASES, Refusal};

// The gas from the thirteen shares of its line.
fn gas_of(v: [Number; FIELDS_MOST]) -> Checked<[Share; GASES]>
    ensures { Taken gas_line.fields (from 0 gases v) result.fault (λ zs. shares result.value ≡ zs) }
{
    let mut value = [Share(0); GASES];
    let mut fault = 0;
    for i in 0..GASES {
        let share = Share::checked(v[i], fault, i + 1);
        value[i] = share.value;
        fault = share.fault;
    }
    Checked { value, fault }
}

// A sum of shares, each so many times.
#[derive(Drop)]
pub struct Tally(pub i64);

// What each gas counts in theoretical air, in 0.0238 m³ per m³ and percent.
const AIR: [i64; GASES] = [1, 0, 1, -2, 0, 0, 4, 6, 7, 10, 13, 3, 0];

// The shares, each as often as its weight says.
fn weighed(gas: [Share; GASES], weights: [i64; GASES]) -> Tally
    requires shares { Every (λ x. nat_abs x.0 ≤ 10000) gas }
    requires weights { Every (λ w. nat_abs w ≤ 13) weights }
    ensures { result.0 ≡ weigh weights (shares gas) }
{
    let mut sum = Tally(0);
    for i in 0..GASES {
        let x = gas[i];
        let w = weights[i];
        sum = Tally(sum.0 + w * x.0 as i64);
    }
    sum
}

// A test against a number of its own, as `analysed` of `lines` is: the number is all that there is to it.
// Whether a sum of shares is the whole.
fn whole(sum: Tally) -> bool
    ensures { result ≡ same sum.0 (pos 10000) }
{
    sum.0 == 10_000
}

// Whether there is any of it.
fn any(sum: Tally) -> bool
    ensures { result ≡ lt_z (pos 0) sum.0 }
{
    0 < sum.0
}

// Whether the shares do not add to 10,000, or the gas asks for no air.
fn unburnable(gas: [Share; GASES]) -> bool
    requires { Every (λ x. nat_abs x.0 ≤ 10000) gas }
    ensures { result ≡ not (same (sum (λ z. z) (shares gas)) (pos 10000) && lt_z (pos 0) (weigh air_weights (shares gas))) }
{
    let full = whole(weighed(gas, [1; GASES]));
    let burns = any(weighed(gas, AIR));
    !(full && burns)
}

// The line `gas`.
pub fn gas_line(s: &[u8], p: Place) -> Heard<[Share; GASES]>
    requires { Ready s.now p }
    ensures { After s.now p (read_line gas_line (gas-rule [])) result.place (λ row. shares result.said ≡ row.numbers) }
{
    let gas = line(s, p, b"gas=", GASES, gas_of);
    let said = gas.said;
    Heard {
        place: ruled(p.line, gas.place, unburnable(said), Refusal::Shares),
        said,
    }
}
