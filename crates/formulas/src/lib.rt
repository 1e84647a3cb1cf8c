// The formulas of a heat balance and the figures of its report, as definitions; and what the code of the heats shares: a straight line of
// table A.2, and the way from exact quotients to whole units.
#![tactic(auto)]

pub mod rounding;

// A straight line of table A.2: a + b T, with a in 0.01 and b in 1e-6 kJ/(kg·°C).
// So written for the compiler: docs/DECISIONS.md, "A quantity is kept in 32 bits and counted with in 64".
#[derive(Clone, Copy)]
pub struct Straight {
    pub a: i32,
    pub b: i32,
}
