// The heat of what stands in the kiln: ware, setters and parts, the ware's water and its clay.
#![tactic(auto)]

mod material;
pub mod records;
pub mod water;
