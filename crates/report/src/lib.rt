// The report of a firing: its figures from the joules, how long it is, and its text in a lent slice.
#![tactic(auto)]

mod joules;
mod writing;

use heat::HEATS;
pub use joules::figures;
pub use writing::{fits, write, write_heats};

// Where in a report the firing's number stands, and behind it the heats in their order.
// Places and no kinds: the order of a report's lines is the definition's (formulas, specs/Report `keys`).
const FIRING: usize = 0;

const FIRST_HEAT: usize = 1;

// Where the two efficiencies stand.
const EFF1: usize = FIRST_HEAT + HEATS;

const EFF2: usize = EFF1 + 1;

// How many lines a report has.
pub const LINES: usize = EFF2 + 1;
