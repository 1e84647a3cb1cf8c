// The blocks of setters and parts: a line's quantities, the line, the count line and its rows.
#![tactic(auto)]

mod parts;
mod setters;

ghost use Rattle.due.specs.Place.{Ready};
ghost use Rattle.document.specs.Entries.{paragraphs_of};
ghost use Rattle.document.specs.Document01.{loading};
ghost use Rattle.due.specs.Said.{GroupRead};
ghost use Rattle.blocks.specs.Loads.{loading_says};

use crate::parts::part_block;
use crate::setters::setter_block;
use due::{Heard, Place};
use sheet::{Parts, Setters};

#[derive(Drop)]
pub struct Loading {
    pub setters: Setters,
    pub parts: Parts,
}

// The setters and the parts.
pub fn loading_lines(s: &[u8], p: Place) -> Heard<Loading>
    requires { Ready s.now p }
    ensures { GroupRead s.now p (paragraphs_of loading) result.place (loading_says result.said) }
{
    let setters = setter_block(s, p);
    let parts = part_block(s, setters.place);
    Heard {
        place: parts.place,
        said: Loading {
            setters: setters.said,
            parts: parts.said,
        },
    }
}
