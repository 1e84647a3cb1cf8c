// The heat that leaves with the flue gas, stage by stage.
#![tactic(auto)]

ghost use Rattle.std.specs.Prelude.{◌≡◌, ◌+◌, ◌*◌, ◌%◌, ◌-◌, ◌^◌, ◌≤◌, ℤ, pos, ◌+ℤ◌, ◌-ℤ◌, ◌*ℤ◌};
ghost use Rattle.std.specs.Int.{w64};
ghost use Rattle.std.proofs.Common.{SFits};
ghost use Rattle.sheet.specs.Shown.{stage as stage_of};
ghost use Rattle.sheet.specs.Block.{sum, stages_of};
ghost use Rattle.sheet.specs.Quantities.{analysis_most};
ghost use Rattle.document.specs.Lawful.{StageIn};
ghost use Rattle.formulas.specs.Rounding.{paper};
ghost use Rattle.formulas.specs.Formulas.{joule, Burning as AnyBurning};
ghost use Rattle.formulas.specs.Formulas.{vapour_rate, vapour, analysed_heat, flue_capacity, dry_heat, vapour_heat, flue_heat, monoxide_heat};
ghost use Rattle.formulas.specs.Figures.{Figure};
ghost use Rattle.formulas.specs.Sizes.{vapour_rate_most, vapour_mass_most, dry_heat_most, vapour_heat_most, flue_heat_most, monoxide_heat_most};
ghost use Rattle.formulas.specs.Sizes.{x7_most, x8_most};
ghost use Rattle.formulas.specs.Steps.{ProductFits, over};
ghost use Rattle.burning.specs.Mixture.{burning as burningOf};
ghost use Rattle.flue.specs.Steps.{hottest, entry_most, DryFits, RateFits, BurnsIn, Volume, FilledIn, DryIn, MoistIn, FlueIn, AllFlueIn};

use burning::mixture::Burning;
use formulas::rounding::Quotient;
use quantity::gas::{CarbonMonoxide, CubicMetres, ExcessAir, Moisture};
use quantity::heat::Joules;
use quantity::sheet::StageCount;
use quantity::temperature::{Degrees, Rise};
use sheet::block::held;
use sheet::{Stage, Stages};

// Dry flue gas for a unit of fuel, in 1e-9 m³.
#[derive(Drop)]
pub struct DryRate(pub i64);

// Dry flue gas of a stage, in 1e-5 m³.
#[derive(Clone, Copy)]
pub struct DryFlue(pub i64);

// Vapour for a unit of fuel, in 1e-9 kg.
#[derive(Drop)]
pub struct VapourRate(pub i64);

// Specific heat of dry flue gas, in 0.001 kJ/(m³·°C).
#[derive(Drop)]
pub struct FlueCapacity(pub i64);

// Vapour of a stage, in 1e-6 kg.
#[derive(Drop)]
pub struct VapourMass(pub i64);

// Formula B.10 with B.4 put in: the dry flue gas for a unit of fuel.
fn dry_rate(burning: Burning, excess: ExcessAir) -> DryRate
    requires { DryFits excess.0 burning.dry burning.air }
    ensures { result.0 ≡ burning.dry +ℤ (excess.0 -ℤ pos 210) *ℤ burning.air }
{
    DryRate(burning.dry + (excess.0 as i64 - 210) * burning.air)
}

// The dry flue gas of all fuel of a stage.
fn dry_exact(gas: CubicMetres, rate: DryRate) -> Quotient
    requires { SFits w64 (gas.0 *ℤ rate.0) }
    ensures { result ≡ over (gas.0 *ℤ rate.0) (10 ^ 5) }
{
    Quotient(gas.0 as i64 * rate.0, 100_000)
}

// The dry flue gas of a stage.
fn dry_flue(burning: Burning, stage: Stage) -> DryFlue
    requires { BurnsIn (burningOf burning) (stage_of stage) }
    ensures { Volume (burningOf burning) (stage_of stage) result.0 }
{
    DryFlue(
        dry_exact(stage.gas, dry_rate(burning, stage.excess))
            .units()
            .0,
    )
}

// Formula B.15.
fn rate_exact(burning: Burning, moisture: Moisture, stage: Stage) -> Quotient
    requires { RateFits stage.excess.0 burning.air moisture.0 burning.vapour }
    ensures { result ≡ over (pos 1293 *ℤ stage.excess.0 *ℤ burning.air *ℤ moisture.0 *ℤ pos 56 +ℤ burning.vapour) (56 * 10 ^ 7) }
{
    Quotient(
        1293 * stage.excess.0 as i64 * burning.air * moisture.0 as i64 * 56 + burning.vapour,
        560_000_000,
    )
}

// The vapour for a unit of fuel.
fn vapour_rate(burning: Burning, moisture: Moisture, stage: Stage) -> VapourRate
    requires { MoistIn (burningOf burning) moisture.0 (stage_of stage) }
    ensures { Figure (56 * 10 ^ 7) vapour_rate_most result.0 (vapour_rate paper (burningOf burning) moisture.0 (stage_of stage)) }
{
    VapourRate(rate_exact(burning, moisture, stage).units().0)
}

// The vapour of all gas of a stage, from the rounded rate.
fn vapour_exact(rate: VapourRate, gas: CubicMetres) -> Quotient
    requires { SFits w64 (rate.0 *ℤ gas.0) }
    ensures { result ≡ over (rate.0 *ℤ gas.0) (10 ^ 4) }
{
    Quotient(rate.0 * gas.0 as i64, 10_000)
}

// The vapour of a stage.
fn vapour(burning: Burning, moisture: Moisture, stage: Stage) -> VapourMass
    requires { MoistIn (burningOf burning) moisture.0 (stage_of stage) }
    ensures { Figure (56 * 10 ^ 11) vapour_mass_most result.0 (vapour paper (burningOf burning) moisture.0 (stage_of stage)) }
{
    VapourMass(
        vapour_exact(vapour_rate(burning, moisture, stage), stage.gas)
            .units()
            .0,
    )
}

// A row of table A.1 of the gases of dry flue: c of each in 0.001 kJ/(m³·°C).
#[derive(Clone, Copy)]
struct FlueRow {
    co: u64,
    co2: u64,
    o2: u64,
    n2: u64,
}

// The rows at 0, 100, .. 1,000 °C. A flue is between a row and the next, so the last has a row of 0 behind it that counts for nothing.
static FLUE_TABLE: [FlueRow; 12] = [
    FlueRow {
        co: 1300,
        co2: 1597,
        o2: 1304,
        n2: 1296,
    },
    FlueRow {
        co: 1301,
        co2: 1697,
        o2: 1317,
        n2: 1300,
    },
    FlueRow {
        co: 1308,
        co2: 1793,
        o2: 1333,
        n2: 1301,
    },
    FlueRow {
        co: 1317,
        co2: 1877,
        o2: 1354,
        n2: 1304,
    },
    FlueRow {
        co: 1329,
        co2: 1923,
        o2: 1375,
        n2: 1317,
    },
    FlueRow {
        co: 1342,
        co2: 1998,
        o2: 1396,
        n2: 1325,
    },
    FlueRow {
        co: 1359,
        co2: 2052,
        o2: 1414,
        n2: 1338,
    },
    FlueRow {
        co: 1372,
        co2: 2098,
        o2: 1434,
        n2: 1354,
    },
    FlueRow {
        co: 1388,
        co2: 2140,
        o2: 1450,
        n2: 1367,
    },
    FlueRow {
        co: 1400,
        co2: 2178,
        o2: 1463,
        n2: 1379,
    },
    FlueRow {
        co: 1413,
        co2: 2215,
        o2: 1476,
        n2: 1392,
    },
    FlueRow {
        co: 0,
        co2: 0,
        o2: 0,
        n2: 0,
    },
];

// c of a gas at a temperature, straight between the rows before and behind it: in 1e-6 kJ/(m³·°C).
fn between(before: u64, behind: u64, t: u64) -> u64
    requires { (before ≤ entry_most) × (behind ≤ entry_most) }
    ensures { result ≡ before * (1000 - t % 1000) + behind * (t % 1000) }
{
    let above = t % 1000;
    let below = 1000 - above;
    before * below + behind * above
}

// Formula 4 over four gases: nitrogen is the rest. In 1e-10 kJ/(m³·°C).
fn analysed_heat(co: u64, pair: u64, oxygen: u64, t: u64) -> u64
    requires { (co + pair + oxygen ≤ analysis_most) × (t ≤ hottest) }
    ensures { result ≡ analysed_heat co pair oxygen t }
{
    let rest = 10_000 - (co + pair + oxygen);
    let row = (t / 1000) as usize;
    let before = FLUE_TABLE[row];
    let behind = FLUE_TABLE[row + 1];
    co * between(before.co, behind.co, t)
        + pair * between(before.co2, behind.co2, t)
        + oxygen * between(before.o2, behind.o2, t)
        + rest * between(before.n2, behind.n2, t)
}

// c of a stage's dry flue: 1.384, or by what an analyser says of it.
fn flue_capacity(stage: Stage) -> FlueCapacity
    requires { StageIn (stage_of stage) }
    ensures { result.0 ≡ flue_capacity (stage_of stage) }
{
    let Some(analysis) = stage.analysis else {
        return FlueCapacity(1384);
    };
    let co = stage.co.0 as u64;
    let pair = analysis.pair.0 as u64;
    let oxygen = analysis.oxygen.0 as u64;
    let t = stage.flue.0 as u64;
    let heat = analysed_heat(co, pair, oxygen, t);
    FlueCapacity(Quotient(heat as i64, 10_000_000).units().0)
}

// V c (flue − t) of the dry flue gas.
fn dry_carried(volume: DryFlue, c: FlueCapacity, rise: Rise) -> Quotient
    requires { ProductFits volume.0 c.0 rise.0 }
    ensures { result ≡ over (volume.0 *ℤ c.0 *ℤ rise.0) (10 ^ 6) }
{
    Quotient(volume.0 * c.0 * rise.0, 1_000_000)
}

// The heat of a stage's dry flue gas.
fn dry_heat(volume: DryFlue, c: FlueCapacity, stage: Stage, t: Degrees) -> Joules
    requires { DryIn volume.0 c.0 (stage_of stage) t.0 }
    ensures { (b : AnyBurning) → Volume b (stage_of stage) volume.0 →
        Figure joule dry_heat_most result.0 (dry_heat paper b c.0 t.0 (stage_of stage)) }
{
    let rise = Degrees::from(stage.flue).above(t);
    dry_carried(volume, c, rise).joules()
}

// m c (flue − t) of the vapour.
fn vapour_carried(mass: VapourMass, rise: Rise) -> Quotient
    requires { ProductFits mass.0 (pos 193) rise.0 }
    ensures { result ≡ over (mass.0 *ℤ pos 193 *ℤ rise.0) (10 ^ 6) }
{
    Quotient(mass.0 * 193 * rise.0, 1_000_000)
}

// The heat of a stage's vapour.
fn vapour_heat(burning: Burning, moisture: Moisture, stage: Stage, t: Degrees) -> Joules
    requires { FlueIn (burningOf burning) moisture.0 (stage_of stage) t.0 }
    ensures { Figure joule vapour_heat_most result.0 (vapour_heat paper (burningOf burning) moisture.0 t.0 (stage_of stage)) }
{
    let rise = Degrees::from(stage.flue).above(t);
    vapour_carried(vapour(burning, moisture, stage), rise).joules()
}

// V CO 12750, with CO as a fraction.
fn unburnt(volume: DryFlue, co: CarbonMonoxide) -> Quotient
    requires { ProductFits volume.0 co.0 (pos 12750) }
    ensures { result ≡ over (volume.0 *ℤ co.0 *ℤ pos 12750) (10 ^ 6) }
{
    Quotient(volume.0 * co.0 as i64 * 12_750, 1_000_000)
}

// Formula 23: the heat that a stage's carbon monoxide would have given.
fn monoxide_heat(volume: DryFlue, stage: Stage) -> Joules
    requires { FilledIn volume.0 (stage_of stage) }
    ensures { (b : AnyBurning) → Volume b (stage_of stage) volume.0 →
        Figure joule monoxide_heat_most result.0 (monoxide_heat paper b (stage_of stage)) }
{
    unburnt(volume, stage.co).joules()
}

// The heat that leaves with the flue gas, and the heat that leaves unburnt.
#[derive(Drop)]
pub struct FlueHeats {
    pub x7: Joules,
    pub x8: Joules,
}

// Both heats of a stage, from the dry flue gas that is worked once.
fn stage_heats(burning: Burning, moisture: Moisture, stage: Stage, t: Degrees) -> FlueHeats
    requires { FlueIn (burningOf burning) moisture.0 (stage_of stage) t.0 }
    ensures figure { Figure joule flue_heat_most result.x7.0 (flue_heat paper (burningOf burning) moisture.0 t.0 (stage_of stage)) }
    ensures figure_2 { Figure joule monoxide_heat_most result.x8.0 (monoxide_heat paper (burningOf burning) (stage_of stage)) }
{
    let volume = dry_flue(burning, stage);
    let c = flue_capacity(stage);
    let dry = dry_heat(volume, c, stage, t);
    let x7 = dry.plus(vapour_heat(burning, moisture, stage, t));
    let x8 = monoxide_heat(volume, stage);
    FlueHeats { x7, x8 }
}

// Both heats of all stages.
pub fn flue_heats(burning: Burning, moisture: Moisture, stages: Stages, t: Degrees) -> FlueHeats
    requires { AllFlueIn (burningOf burning) moisture.0 (stages_of stages) t.0 }
    ensures figure { Figure joule x7_most result.x7.0 (sum (flue_heat paper (burningOf burning) moisture.0 t.0) (stages_of stages)) }
    ensures figure_2 { Figure joule x8_most result.x8.0 (sum (monoxide_heat paper (burningOf burning)) (stages_of stages)) }
{
    let count = held(stages.count.0, StageCount::GREATEST);
    let mut x7 = Joules(0);
    let mut x8 = Joules(0);
    // So written for the compiler: docs/DECISIONS.md, "Two heats in one loop".
    for stage in &stages.lines[..count] {
        let heats = stage_heats(burning, moisture, *stage, t);
        x7 = x7.plus(heats.x7);
        x8 = x8.plus(heats.x8);
    }
    FlueHeats { x7, x8 }
}
