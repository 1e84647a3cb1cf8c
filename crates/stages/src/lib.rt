// The stages.
#![tactic(auto)]

ghost use Rattle.std.specs.Prelude.{◌≡◌, true, false, [], pos};
ghost use Rattle.std.proofs.Math.Option.{none};
ghost use Rattle.std.specs.Int.Signed.{lt_z};
ghost use Rattle.sheet.specs.Quantities.{analysis_most};
ghost use Rattle.document.specs.Schema.{plain};
ghost use Rattle.document.specs.Tests.{analysis-rule};
ghost use Rattle.document.specs.Document01.{stage_line};
ghost use Rattle.document.specs.Sheet2.{analysed_line, stage_line_by, stage_rule_by};
ghost use Rattle.document.specs.Reader.{Sheet, read_line};
ghost use Rattle.due.specs.Place.{Ready, After};
ghost use Rattle.due.specs.Taking.{from, Taken};
ghost use Rattle.stages.specs.Stages.{StagesRead, held_by, dry_sum};

use due::{Heard, Place, counted_line, line, rows, ruled};
use limits::{Checked, Count, Measure, Number};
use quantity::gas::{CarbonMonoxide, CubicMetres, Dioxides, ExcessAir, Oxygen};
use quantity::kiln::Minutes;
use quantity::sheet::StageCount;
use quantity::temperature::{AnalysedFlueTemperature, FlueTemperature};
use sheet::{Analysis, FIELDS_MOST, Refusal, Stage, Stages};

// Carbon monoxide, the dioxides and oxygen of a dry flue are at most so much of it together, in 0.01 %.
const ANALYSIS_MOST: i64 = 4_000;

// A stage from the five numbers of its line.
fn stage_of(v: [Number; FIELDS_MOST]) -> Checked<Stage>
    ensures { Taken stage_line.fields (from 0 5 v) result.fault (λ zs. result.value ≡ held_by false (plain zs)) }
{
    let gas = CubicMetres::checked(v[0], 0, 1);
    let excess = ExcessAir::checked(v[1], gas.fault, 2);
    let flue = FlueTemperature::checked(v[2], excess.fault, 3);
    let co = CarbonMonoxide::checked(v[3], flue.fault, 4);
    let minutes = Minutes::checked(v[4], co.fault, 5);
    Checked {
        value: Stage {
            gas: gas.value,
            excess: excess.value,
            flue: flue.value,
            co: co.value,
            analysis: sheet::blank::analysis(),
            minutes: minutes.value,
        },
        fault: minutes.fault,
    }
}

// A stage from the seven numbers of its line on sheet 2.
fn analysed_of(v: [Number; FIELDS_MOST]) -> Checked<Stage>
    ensures { Taken analysed_line.fields (from 0 7 v) result.fault (λ zs. result.value ≡ held_by true (plain zs)) }
{
    let gas = CubicMetres::checked(v[0], 0, 1);
    let excess = ExcessAir::checked(v[1], gas.fault, 2);
    let flue = AnalysedFlueTemperature::checked(v[2], excess.fault, 3);
    let co = CarbonMonoxide::checked(v[3], flue.fault, 4);
    let pair = Dioxides::checked(v[4], co.fault, 5);
    let oxygen = Oxygen::checked(v[5], pair.fault, 6);
    let minutes = Minutes::checked(v[6], oxygen.fault, 7);
    let analysis = Analysis {
        pair: pair.value,
        oxygen: oxygen.value,
    };
    Checked {
        value: Stage {
            gas: gas.value,
            excess: excess.value,
            flue: FlueTemperature::from(flue.value),
            co: co.value,
            analysis: Some(analysis),
            minutes: minutes.value,
        },
        fault: minutes.fault,
    }
}

// Carbon monoxide with what an analyser says besides, where it says anything.
fn together(x: Stage) -> Number
    ensures { result.0 ≡ dry_sum x.co.0 x.analysis }
{
    let co = x.co.0 as i64;
    match x.analysis {
        Some(analysis) => Number(co + analysis.pair.0 as i64 + analysis.oxygen.0 as i64),
        None => Number(co),
    }
}

// Whether that is more than a dry flue can have.
fn crowded(sum: Number) -> bool
    ensures { result ≡ lt_z (pos analysis_most) sum.0 }
{
    ANALYSIS_MOST < sum.0
}

// What is left of a line behind `due::line` has the line's own promise.
// One line `stage` of sheet 1.
fn plain_line(s: &[u8], p: Place) -> Heard<Stage>
    requires { Ready s.now p }
    ensures { After s.now p (read_line stage_line (λ row. none)) result.place (λ row. result.said ≡ held_by false row) }
{
    line(s, p, b"stage=", 5, stage_of)
}

// One line `stage` of sheet 2.
fn analysed_line(s: &[u8], p: Place) -> Heard<Stage>
    requires { Ready s.now p }
    ensures { After s.now p (read_line analysed_line (analysis-rule [])) result.place (λ row. result.said ≡ held_by true row) }
{
    let stage = line(s, p, b"stage=", 7, analysed_of);
    let sum = together(stage.said);
    Heard {
        place: ruled(p.line, stage.place, crowded(sum), Refusal::Analysis),
        said: stage.said,
    }
}

// One line `stage` of a sheet whose flue is analysed or not.
fn stage_line(s: &[u8], p: Place, analysed: bool) -> Heard<Stage>
    requires { Ready s.now p }
    ensures { (seen : Sheet) → After s.now p (read_line (stage_line_by analysed) (stage_rule_by analysed seen)) result.place
        (λ row. result.said ≡ held_by analysed row) }
{
    if analysed {
        analysed_line(s, p)
    } else {
        plain_line(s, p)
    }
}

// The line `stages` and its lines `stage`.
pub fn staging_lines(s: &[u8], p: Place, analysed: bool) -> Heard<Stages>
    requires { Ready s.now p }
    ensures { StagesRead s.now p analysed result }
{
    let count = counted_line::<StageCount>(s, p, b"stages=");
    let read = rows(
        count.place,
        count.said.0,
        sheet::blank::stage(),
        |q| -> Heard<Stage>
            requires { Ready s.now q }
            ensures { (seen : Sheet) → After s.entry.now q (read_line (stage_line_by analysed) (stage_rule_by analysed seen)) result.place
                (λ row. result.said ≡ held_by analysed row) }
        { stage_line(s, q, analysed) },
    );
    let lines = read.said;
    Heard {
        place: read.place,
        said: Stages {
            count: count.said,
            lines,
        },
    }
}
