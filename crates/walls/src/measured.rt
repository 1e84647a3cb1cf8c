// Whether every section was read in every stage, rule 8.
ghost use Rattle.std.specs.Prelude.{◌≡◌, ◌≤◌, ◌<◌};
ghost use Rattle.sheet.specs.Quantities.{sections_most, stages_most};
ghost use Rattle.walls.specs.Cells.{row_read, all_read};

use quantity::sheet::SectionCount;
use sheet::SectionReadings;

// Whether a section was read in each of the first stages.
fn row_read(readings: SectionReadings, stages: usize) -> bool
    requires { stages ≤ stages_most }
    ensures { result ≡ row_read readings stages }
{
    for stage in 0..stages {
        if readings.stages[stage].is_none() {
            return false;
        }
    }
    true
}

// Whether each of the first sections was read in each of the first stages.
pub fn all_read(
    readings: [SectionReadings; SectionCount::GREATEST],
    sections: usize,
    stages: usize,
) -> bool
    requires { (sections ≤ sections_most) × (stages ≤ stages_most) }
    ensures { result ≡ all_read readings sections stages }
{
    for row in 0..sections {
        let there = readings[row];
        if !row_read(there, stages) {
            return false;
        }
    }
    true
}
