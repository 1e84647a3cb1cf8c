// The quantities of a sheet, each a type of its own with its limits and its checking constructor, so
// that a kilogram never goes in where a degree is asked and a limit is written once.
//
// A constructor `checked`, which the traits of `limits` have for all of them, takes the number, the fault found so far (0 for none) and
// the number of its own field. It returns a value that is within the limits in any case, and the first fault. So the fields of a line are
// checked one after another, with no branch between them. `limits`, proofs/Laws.antt has what their callers may conclude.
//
// What is measured is kept in 32 bits: who counts with it widens it first (`proofs/Casts.antt`).
// So written for the compiler: docs/DECISIONS.md, "A quantity is kept in 32 bits and counted with in 64".
#![tactic(auto)]

pub mod gas;
pub mod heat;
pub mod kiln;
pub mod mass;
pub mod sheet;
pub mod temperature;
