// The heat that leaves through the surface, reading by reading.
#![tactic(auto)]

ghost use Rattle.sheet.specs.declared.Reading.{Reading as ReadingOf};
ghost use Rattle.std.specs.Prelude.{Some, ◌≡◌, ℕ, ◌*◌, ◌^◌, ◌≤◌, ◌<◌, ℤ, pos, nat_abs, ◌+ℤ◌, ◌-ℤ◌, ◌*ℤ◌, get_or};
ghost use Rattle.std.specs.Int.{w64};
ghost use Rattle.std.proofs.Common.{SFits};
ghost use Rattle.roots.specs.Steps.{side};
ghost use Rattle.sheet.specs.Firing.{Wall, Firing};
ghost use Rattle.sheet.specs.Quantities.{sections_most, stages_most, walls_most};
ghost use Rattle.sheet.specs.Shown.{stage as stage_of, section as section_of, cell};
ghost use Rattle.formulas.specs.Rounding.{paper, fourth_root, convected};
ghost use Rattle.formulas.specs.Formulas.{joule, placed, fourth, radiation, flux, wall_heat, x9};
ghost use Rattle.formulas.specs.Figures.{Exact, Figure};
ghost use Rattle.formulas.specs.Sizes.{cells_most, placed_most, warmer_most, convection_most, radiation_most, flux_most, wall_heat_most, x9_most};
ghost use Rattle.formulas.specs.Steps.{over};
ghost use Rattle.surface.specs.Cells.{FourthFits, DifferenceFits, LostFits, RiseIn, HotIn, ReadingIn, WallIn, LostIn, Rooted, EachRooted, Seen};

use formulas::rounding::Quotient;
use quantity::heat::Joules;
use quantity::kiln::{Area, Minutes, SectionPlace};
use quantity::sheet::{SectionCount, StageCount, WallCount};
use quantity::temperature::{Degrees, Rise};
use roots::SIDE;
use sheet::block::held;
use sheet::{Reading, Section, SectionReadings, Sections, Stage, Stages};
use std::array;

// A heat flux, in 1e-5 W/m².
#[derive(Drop)]
pub struct Flux(pub i64);

// ((273 + T)/100)⁴, in 1e-12.
#[derive(Drop)]
pub struct Fourth(pub i64);

// A of formula 25 in 0.01, by place.
static FACTOR: [u64; 4] = [0, 326, 256, 210];

// The fourth root of a rise in 1e-8: the square root cut down, and the square root of that cut down.
fn fourth_root(rise: u64) -> u64
    requires { rise ≤ warmer_most }
    ensures { result ≡ fourth_root rise }
{
    roots::floor_root(roots::floor_root(rise * 1_000_000_000_000_000) * 100_000_000)
}

// A rise and its fourth root, noted down when it was found beside others. Of what is more than a rise can be nothing is said.
#[derive(Clone, Copy)]
struct Noted {
    rise: u64,
    root: u64,
    ghost rooted: { Rooted rise root },
}

impl Noted {
    fn new(rise: u64, root: u64) -> Noted
        requires { Rooted rise root }
    {
        Noted { rise, root }
    }
}

// The fourth root of a rise: the one that is noted, or else by itself.
fn known(rise: u64, noted: Noted) -> u64
    requires { rise ≤ warmer_most }
    ensures { result ≡ fourth_root rise }
{
    if noted.rise == rise {
        noted.root
    } else {
        fourth_root(rise)
    }
}

// A product, or 0 where the first factor is above the greatest and the product might be too large.
fn times(x: u64, by: u64, most: u64) -> u64
    requires { most * by < 2 ^ 64 }
    ensures { (x ≤ most → result ≡ x * by) × (result ≤ most * by) }
{
    if x <= most { x * by } else { 0 }
}

fn each_times(x: [u64; SIDE], by: u64, most: u64) -> [u64; SIDE]
    requires { most * by < 2 ^ 64 }
    ensures { (k : ℕ) → k < side → (get_or x k 0 ≤ most → get_or result k 0 ≡ get_or x k 0 * by) × (get_or result k 0 ≤ most * by) }
{
    x.map(|one| times(one, by, most))
}

// The fourth roots of several rises, side by side.
fn fourth_roots(rises: [u64; SIDE]) -> [u64; SIDE]
    ensures { EachRooted rises result }
{
    let first = roots::floor_roots(each_times(rises, 1_000_000_000_000_000, 4_000), 31);
    roots::floor_roots(each_times(first, 100_000_000, 2_000_000_000), 29)
}

// Several rises, noted down with their fourth roots.
fn noted_down(rises: [u64; SIDE]) -> [Noted; SIDE] {
    let roots = fourth_roots(rises);
    array::from_fn(|i| Noted::new(rises[i], roots[i]))
}

// The first term of formula 25, A Δ ⁴√Δ, before it is rounded.
fn first_term(a: u64, rise: u64, noted: Noted) -> Quotient
    requires { (a ≤ placed_most) × (rise ≤ warmer_most) }
    ensures { result ≡ over (pos (a * rise * fourth_root rise)) (10 ^ 6) }
{
    Quotient((a * rise * known(rise, noted)) as i64, 1_000_000)
}

// The first term of formula 25.
fn convection(place: SectionPlace, rise: Rise, noted: Noted) -> Flux
    requires { RiseIn place.0 rise.0 }
    ensures { Exact convection_most result.0 (pos (convected (placed place.0) (nat_abs rise.0))) }
{
    let at = place.0;
    let size = rise.0 as u64;
    Flux(first_term(FACTOR[at], size, noted).units().0)
}

// The fourth power of a temperature above the absolute zero.
fn fourth_power(at: Degrees) -> Fourth
    requires { FourthFits at.0 }
    ensures { result.0 ≡ fourth at.0 }
{
    let k = 2730 + at.0 as i64;
    Fourth(k * k * k * k)
}

// The second term of formula 25, exact.
fn radiated(surface: Fourth, air: Fourth) -> Quotient
    requires { DifferenceFits surface.0 air.0 }
    ensures { result ≡ over (pos 454 *ℤ (surface.0 -ℤ air.0)) (10 ^ 9) }
{
    Quotient(454 * (surface.0 - air.0), 1_000_000_000)
}

// The second term of formula 25.
fn radiation(surface: Degrees, air: Degrees) -> Flux
    requires { HotIn surface.0 air.0 }
    ensures { (w : Wall) → w.surface ≡ surface.0 → w.air ≡ air.0 → Figure (10 ^ 9) radiation_most result.0 (radiation paper w) }
{
    Flux(radiated(fourth_power(surface), fourth_power(air)).units().0)
}

// Both terms together.
fn both(first: Flux, second: Flux) -> Flux
    requires { SFits w64 (first.0 +ℤ second.0) }
    ensures { result.0 ≡ first.0 +ℤ second.0 }
{
    Flux(first.0 + second.0)
}

// Formula 25, as a product.
fn flux_at(reading: Reading, section: Section, noted: Noted) -> Flux
    requires { WallIn reading (section_of section) }
    ensures { (w : Wall) → w.surface ≡ reading.surface.0 → w.air ≡ reading.air.0 →
        Figure (10 ^ 9) flux_most result.0 (flux paper (section_of section) w) }
{
    let first = convection(section.place, reading.surface.above(reading.air), noted);
    let second = radiation(Degrees::from(reading.surface), Degrees::from(reading.air));
    both(first, second)
}

// Formula 27 before it is rounded: 3.6 kJ per Wh, a sixtieth of it a minute.
fn lost(flux: Flux, area: Area, minutes: Minutes) -> Quotient
    requires { LostFits flux.0 area.0 minutes.0 }
    ensures { result ≡ over (flux.0 *ℤ area.0 *ℤ minutes.0 *ℤ pos 6) (10 ^ 6) }
{
    Quotient(flux.0 * area.0 as i64 * minutes.0 as i64 * 6, 1_000_000)
}

// The heat that leaves through a section in a stage.
fn wall_heat(reading: Reading, section: Section, stage: Stage, noted: Noted) -> Joules
    requires { LostIn reading (section_of section) (stage_of stage) }
    ensures { (w : Wall) → w.surface ≡ reading.surface.0 → w.air ≡ reading.air.0 →
        Figure joule wall_heat_most result.0 (wall_heat paper (section_of section) (stage_of stage) w) }
{
    lost(
        flux_at(reading, section, noted),
        section.area,
        stage.minutes,
    )
    .joules()
}

// As many groups as hold every reading of a sheet.
const GROUPS: usize = WallCount::GREATEST / SIDE;

// The how manieth a reading is in the order of `x9`.
fn turn(i: usize, j: usize, columns: usize) -> usize
    requires { (i < sections_most) × (j < stages_most) × (columns ≤ stages_most) }
    ensures { result < walls_most }
{
    held(i * columns + j, WallCount::GREATEST - 1)
}

// The rises of the readings in that order, in groups.
fn gathered(
    readings: [SectionReadings; SectionCount::GREATEST],
    rows: usize,
    columns: usize,
) -> [[u64; SIDE]; GROUPS]
    requires { (rows ≤ sections_most) × (columns ≤ stages_most) × ((i j : ℕ) → i < rows → j < columns →
        (x : ReadingOf) → cell readings i j ≡ Some x → ReadingIn x) }
{
    let mut rises = [[0; SIDE]; GROUPS];
    // By index, as in `x9`: that a cell is one of the first says what is known of it.
    for i in 0..rows {
        let row = readings[i];
        for j in 0..columns {
            if let Some(reading) = row.stages[j] {
                let at = turn(i, j, columns);
                rises[at / SIDE][at % SIDE] = arith::magnitude(
                    reading.surface.above(reading.air).0,
                );
            }
        }
    }
    rises
}

// The fourth roots of the first `count` rises, group by group. A group with fewer than half of its rises is left out: by themselves they take less time.
fn side_by_side(rises: [[u64; SIDE]; GROUPS], count: usize) -> [[Noted; SIDE]; GROUPS]
    requires { count ≤ cells_most }
{
    let full = held((count + SIDE / 2) / SIDE, GROUPS);
    let mut groups = [[Noted::new(0, 0); SIDE]; GROUPS];
    for (g, some) in rises[..full].iter().enumerate() {
        groups[g] = noted_down(*some);
    }
    groups
}

// The heat that leaves through the surface: each section that there is, in each stage that there is.
pub fn x9(
    readings: [SectionReadings; SectionCount::GREATEST],
    sections: Sections,
    stages: Stages,
) -> Joules
    requires { (f : Firing) × Seen readings sections stages f }
    ensures { (f : Firing) → Seen readings sections stages f → Figure joule x9_most result.0 (x9 f paper) }
{
    let places = sections.lines;
    let times = stages.lines;
    let rows = held(sections.count.0, SectionCount::GREATEST);
    let columns = held(stages.count.0, StageCount::GREATEST);
    let groups = side_by_side(gathered(readings, rows, columns), rows * columns);
    let noted = groups.as_slice().as_flattened();
    let mut sum = Joules(0);
    // By index: what belongs to a cell lies in four arrays, its reading, its section, its stage and what is noted of it.
    for i in 0..rows {
        let row = readings[i];
        for j in 0..columns {
            if let Some(reading) = row.stages[j] {
                let own = noted[turn(i, j, columns)];
                sum = sum.plus(wall_heat(reading, places[i], times[j], own));
            }
        }
    }
    sum
}
