// The readings at the walls, with the sections above them.
#![tactic(auto)]

mod line;
pub mod measured;
mod rows;

ghost use Rattle.due.specs.Place.{Ready};
ghost use Rattle.walls.specs.Surfaces.{SurfacesRead};

use crate::rows::wall_block;
use due::{Heard, Place};
use quantity::sheet::SectionCount;
use sections::section_block;
use sheet::{SectionReadings, Sections};

#[derive(Drop)]
pub struct Surfaces {
    pub sections: Sections,
    pub readings: [SectionReadings; SectionCount::GREATEST],
}

// The sections and the walls, for so many stages.
pub fn surface_lines(s: &[u8], p: Place, stages: usize) -> Heard<Surfaces>
    requires { Ready s.now p }
    ensures { SurfacesRead s.now p stages result }
{
    let sections = section_block(s, p);
    let walls = wall_block(s, sections.place, sections.said, stages);
    let readings = walls.said;
    Heard {
        place: walls.place,
        said: Surfaces {
            sections: sections.said,
            readings,
        },
    }
}
