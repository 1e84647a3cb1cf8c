// The whole sheet: where its reading begins, and the rules that look at all of its lines.
ghost use Rattle.std.specs.Prelude.{◌≡◌};
ghost use Rattle.lines.specs.All.{Sized};
ghost use Rattle.reader.specs.Whole.{opening_as, verdict_as};

use due::{Place, refused};
use limits::Measure;
use quantity::gas::GasTotal;
use sheet::block::total_gas;
use sheet::{Refusal, SHEET_MOST, Sheet};

// Where the reading of so many bytes begins: before the first line, or refused if they are more than a sheet may have.
pub fn opening(n: usize) -> Place
    ensures { result ≡ opening_as n }
{
    if n > SHEET_MOST {
        return refused(Refusal::TooLong, 0);
    }
    Place {
        number: 0,
        field: 0,
        line: 1,
        at: 0,
    }
}

// Document 01's number of the refusal, the field that it names and its line, 0 for the whole sheet.
#[derive(Drop)]
pub struct Rejection {
    pub number: usize,
    pub field: usize,
    pub line: usize,
}

// The place after the rules of the whole sheet: that nothing stands below the last line, the gas of all stages, and then a reading for
// every section in every stage.
pub fn verdict(n: usize, p: Place, sheet: Sheet) -> Place
    requires { Sized sheet }
    ensures { result ≡ verdict_as n p sheet }
{
    if p.number != 0 {
        return p;
    }
    if p.at < n {
        return refused(Refusal::Surplus, p.line);
    }
    let stages = sheet.stages;
    let count = stages.count;
    let t = GasTotal::checked(total_gas(stages), 0, 1);
    if t.fault != 0 {
        return refused(Refusal::GasTotal, 0);
    }
    let sections = sheet.sections;
    let number = sections.count;
    let readings = sheet.readings;
    if walls::measured::all_read(readings, number.0, count.0) {
        return p;
    }
    refused(Refusal::Missing, 0)
}
