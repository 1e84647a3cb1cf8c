// The lines `firing` to `clay` but those of the fuel: quantities, ranges, rules.
#![tactic(auto)]

pub mod drying;
pub mod heading;
