// The heat of ware, setters and parts: m c (T − T₀) of each record, and the sums.
ghost use Rattle.std.specs.Prelude.{◌≡◌, ◌≤◌, ◌*◌, ℕ, ℤ, length};
ghost use lib.Dec.{lit≤};
ghost use Rattle.sheet.specs.Firing.{Firing};
ghost use Rattle.sheet.specs.Block.{sum};
ghost use Rattle.sheet.specs.Shown.{setter as setter_of, part as part_of, ware as ware_of};
ghost use Rattle.sheet.specs.Quantities.{temperature, setters_most, parts_most};
ghost use Rattle.document.specs.Rules.{Every};
ghost use Rattle.document.specs.Lawful.{SetterIn, PartIn};
ghost use Rattle.formulas.specs.Rounding.{paper};
ghost use Rattle.formulas.specs.Formulas.{joule, sensible, q3, q5, q8, x1, x5, x10};
ghost use Rattle.formulas.specs.Figures.{Within, Figure};
ghost use Rattle.formulas.specs.Sizes.{greatest, sensible_most, setters_heat_most, parts_heat_most};
ghost use Rattle.solids.specs.Steps.{records_most, Loads, WareWarmed, WareFired, setters_of, parts_of};

use crate::material::sensible;
use quantity::heat::Joules;
use quantity::mass::{Kilos, Product};
use quantity::sheet::{PartCount, SetterCount};
use quantity::temperature::Degrees;
use sheet::block::held;
use sheet::{Part, Parts, Setter, Setters, Ware};

// The setters' heat above the base temperature, and what they take up until the ware's highest temperature.
#[derive(Drop)]
pub struct SetterHeats {
    pub q3: Joules,
    pub x5: Joules,
}

// The parts' heat above the base temperature, before lighting and at firing temperature.
#[derive(Drop)]
pub struct PartHeats {
    pub q8: Joules,
    pub x10: Joules,
}

// What is heated brings heat and takes heat with it.
#[derive(Drop)]
struct Heats {
    brought: Joules,
    taken: Joules,
}

// A record that is heated, between temperatures of its own and of the firing.
trait Load<At>: Copy {
    // How many of them a block has at most.
    ghost most: { ℕ };

    ghost few: { most ≤ records_most };

    ghost within: { Self → At → Type 0 };

    ghost brought: { Self → At → ℤ };

    ghost taken: { Self → At → ℤ };

    fn heats(self, at: At) -> Heats
        requires { within self at }
        ensures brings { Figure joule sensible_most result.brought.0 (brought self at) }
        ensures takes { Figure joule sensible_most result.taken.0 (taken self at) };
}

impl Load<(Degrees, Degrees)> for Setter {
    ghost most = { setters_most };

    ghost few = { lit≤ tt };

    ghost within = { λ x at. SetterIn (setter_of x) × Within (greatest temperature) at.0.0 × Within (greatest temperature) at.1.0 };

    ghost brought = { λ x at. sensible paper (setter_of x).mass (setter_of x).stuff (setter_of x).entry at.0.0 };

    ghost taken = { λ x at. sensible paper (setter_of x).mass (setter_of x).stuff at.1.0 (setter_of x).entry };

    // Between the base temperature and the ware's highest.
    fn heats(self, at: (Degrees, Degrees)) -> Heats {
        let (t, highest) = at;
        Heats {
            brought: sensible(self.mass, self.stuff, self.entry, t),
            taken: sensible(self.mass, self.stuff, highest, self.entry),
        }
    }
}

impl Load<Degrees> for Part {
    ghost most = { parts_most };

    ghost few = { lit≤ tt };

    ghost within = { λ x at. PartIn (part_of x) × Within (greatest temperature) at.0 };

    ghost brought = { λ x at. sensible paper (part_of x).mass (part_of x).stuff (part_of x).before at.0 };

    ghost taken = { λ x at. sensible paper (part_of x).mass (part_of x).stuff (part_of x).firing at.0 };

    fn heats(self, at: Degrees) -> Heats {
        Heats {
            brought: sensible(self.mass, self.stuff, self.before, at),
            taken: sensible(self.mass, self.stuff, self.firing, at),
        }
    }
}

// Both heats of all records of a block.
fn all_heats<At: Copy, L: Load<At>>(lines: &[L], at: At) -> Heats
    requires room { length lines.now ≤ L.most }
    requires each { Every (λ x. L.within x at) lines.now }
    ensures brings { Figure joule (L.most * sensible_most) result.brought.0 (sum (λ x. L.brought x at) lines.now) }
    ensures takes { Figure joule (L.most * sensible_most) result.taken.0 (sum (λ x. L.taken x at) lines.now) }
{
    let mut brought = Joules(0);
    let mut taken = Joules(0);
    // So written for the compiler: docs/DECISIONS.md, "Two heats in one loop".
    for line in lines {
        let heats = line.heats(at);
        brought = brought.plus(heats.brought);
        taken = taken.plus(heats.taken);
    }
    Heats { brought, taken }
}

// Both heats of the setters.
pub fn setter_heats(setters: Setters, t: Degrees, highest: Degrees) -> SetterHeats
    requires loads { Loads SetterIn (setters_of setters) t.0 }
    requires within { Within (greatest temperature) highest.0 }
    ensures figure { (f : Firing) → f.setters ≡ setters_of setters → f.ambient ≡ t.0 → Figure joule setters_heat_most result.q3.0 (q3 f paper) }
    ensures figure_2 { (f : Firing) → f.setters ≡ setters_of setters → f.ware.highest ≡ highest.0 → Figure joule setters_heat_most result.x5.0 (x5 f paper) }
{
    let count = held(setters.count.0, SetterCount::GREATEST);
    let heats = all_heats(&setters.lines[..count], (t, highest));
    SetterHeats {
        q3: heats.brought,
        x5: heats.taken,
    }
}

// Both heats of the parts.
pub fn part_heats(parts: Parts, t: Degrees) -> PartHeats
    requires { Loads PartIn (parts_of parts) t.0 }
    ensures figure { (f : Firing) → f.parts ≡ parts_of parts → f.ambient ≡ t.0 → Figure joule parts_heat_most result.q8.0 (q8 f paper) }
    ensures figure_2 { (f : Firing) → f.parts ≡ parts_of parts → f.ambient ≡ t.0 → Figure joule parts_heat_most result.x10.0 (x10 f paper) }
{
    let count = held(parts.count.0, PartCount::GREATEST);
    let heats = all_heats(&parts.lines[..count], t);
    PartHeats {
        q8: heats.brought,
        x10: heats.taken,
    }
}

// The green ware's heat above the base temperature.
pub fn q5(ware: Ware, t: Degrees) -> Joules
    requires { WareWarmed (ware_of ware) t.0 }
    ensures { (f : Firing) → f.ware ≡ ware_of ware → f.ambient ≡ t.0 → Figure joule sensible_most result.0 (q5 f paper) }
{
    sensible(ware.green, ware.stuff, ware.entry, t)
}

// The fired ware's heat, from its entry to the highest temperature.
pub fn x1(product: Product, ware: Ware) -> Joules
    requires { WareFired product.0 (ware_of ware) }
    ensures { (f : Firing) → f.product ≡ product.0 → f.ware ≡ ware_of ware → Figure joule sensible_most result.0 (x1 f paper) }
{
    let mass = Kilos(product.0);
    sensible(mass, ware.stuff, ware.highest, ware.entry)
}
