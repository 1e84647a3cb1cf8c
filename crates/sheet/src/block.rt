// The lines that a block holds, and the gas of all stages.
ghost use Rattle.std.specs.Prelude.{◌≡◌, min};
ghost use Rattle.sheet.specs.Block.{stages_of, total_gas};

use crate::Stages;
use limits::Number;
use quantity::sheet::StageCount;

// How many lines a block holds: its count, and never more than it has room for.
pub fn held(count: usize, room: usize) -> usize
    ensures { result ≡ min count room }
{
    count.min(room)
}

// The gas of all stages: a plain number, as a sum that begins at 0 keeps no limits on its way.
pub fn total_gas(stages: Stages) -> Number
    ensures { result.0 ≡ total_gas (stages_of stages) }
{
    let lines = stages.lines;
    let count = held(stages.count.0, StageCount::GREATEST);
    let mut sum = Number(0);
    for i in 0..count {
        let stage = lines[i];
        let gas = stage.gas;
        sum = Number(sum.0 + gas.0 as i64);
    }
    sum
}
