// Numbers and lines as text: reading a number in the sheet's form, and finding one's way in a line. Crate `pen` writes them.
#![tactic(auto)]

mod read;
mod scan;

pub use read::{number, number_within};
pub use scan::{count, find, starts};
