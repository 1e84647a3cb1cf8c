// The lines `wall`, their rules, and the cell of section and stage that each reading is laid into.
ghost use Rattle.std.specs.Prelude.{◌≡◌, true, ◌≤◌, length, take, map};
ghost use Rattle.std.specs.Int.Signed.{lt_z};
ghost use Rattle.sheet.specs.declared.Refusal.TheVariants.{ReadTwice, Colder};
ghost use Rattle.sheet.specs.Shown.{was_read, section};
ghost use Rattle.sheet.specs.Quantities.{sections_most};
ghost use Rattle.due.specs.Place.{Ready, ruled as ruledPlace};
ghost use Rattle.walls.specs.Cells.{by_section};
ghost use Rattle.walls.specs.Walls.{nowhere, NamedAfter, WallsAfter};
ghost use Rattle.walls.specs.Surfaces.{WallsRead};

use crate::line::{Wall, colder, reading_of, wall_line};
use due::{Heard, Place, counted_line, ruled};
use quantity::sheet::{SectionCount, StageCount, WallCount};
use sections::section_place;
use sheet::{Reading, Refusal, Section, SectionReadings, Sections};

// A wall line's reading with the place of its section among the sections, from 0; a refused one has the first.
#[derive(Drop)]
pub struct NamedWall {
    pub wall: Wall,
    pub row: usize,
}

// A wall line that names a section or a stage which there is not.
fn unnamed(line: usize, q: Place, wall: Wall) -> Heard<NamedWall>
    ensures { result ≡ nowhere line q wall }
{
    Heard {
        place: ruled(line, q, true, Refusal::NoSuchWall),
        said: NamedWall { wall, row: 0 },
    }
}

// One line `wall` and rule 6 on it: its section is listed, and there is its stage.
fn named_wall(
    s: &[u8],
    p: Place,
    numbers: &[usize; SectionCount::GREATEST],
    count: usize,
    stages: usize,
) -> Heard<NamedWall>
    requires count_le_sections_most { (count ≤ sections_most) × (count ≤ length numbers.now) }
    requires ready { Ready s.now p }
    ensures { NamedAfter s.now p numbers.now count stages result }
{
    let heard = wall_line(s, p);
    let place = heard.place;
    let wall = heard.said;
    let row = section_place(numbers, count, wall.section);
    if count <= row {
        return unnamed(p.line, place, wall);
    }
    if stages < wall.stage.0 {
        return unnamed(p.line, place, wall);
    }
    Heard {
        place,
        said: NamedWall { wall, row },
    }
}

// Rules 7 and 9 on a wall line, by what lies in its cell.
fn read_once(line: usize, q: Place, there: Option<Reading>, w: Wall) -> Place
    ensures { result ≡ ruledPlace line (ruledPlace line q (was_read there) ReadTwice) (lt_z w.surface.0 w.air.0) Colder }
{
    let read = there.is_some();
    let cold = colder(w.surface, w.air);
    let first = ruled(line, q, read, Refusal::ReadTwice);
    ruled(line, first, cold, Refusal::Colder)
}

// The readings of each section, from its row of cells.
fn by_section(
    cells: [[Option<Reading>; StageCount::GREATEST]; SectionCount::GREATEST],
) -> [SectionReadings; SectionCount::GREATEST]
    ensures { result ≡ by_section cells }
{
    let none = sheet::blank::section_readings();
    let mut readings = [none; SectionCount::GREATEST];
    for i in 0..SectionCount::GREATEST {
        let stages = cells[i];
        readings[i] = SectionReadings { stages };
    }
    readings
}

// n lines `wall`, laid into the cells of their section and stage.
// So written for the compiler: docs/DECISIONS.md, "A reading is laid into its cell in place".
fn wall_rows(
    s: &[u8],
    start: Place,
    n: usize,
    sections: [Section; SectionCount::GREATEST],
    count: usize,
    stages: usize,
) -> Heard<[SectionReadings; SectionCount::GREATEST]>
    requires count_le_sections_most { count ≤ sections_most }
    requires ready { Ready s.now start }
    ensures { WallsAfter s.now start n (map section (take count sections)) stages result.place result.said }
{
    let none = sheet::blank::reading();
    let numbers = sections::numbers_of(sections);
    let blank = [none; StageCount::GREATEST];
    let mut cells = [blank; SectionCount::GREATEST];
    let mut place = start;
    for _ in 0..n {
        let heard = named_wall(s, place, &numbers, count, stages);
        let wall = heard.said.wall;
        let row = heard.said.row;
        let column = wall.stage.0 - 1;
        let there = cells[row][column];
        place = read_once(place.line, heard.place, there, wall);
        if place.number == 0 {
            cells[row][column] = Some(reading_of(wall));
        }
    }
    let said = by_section(cells);
    Heard { place, said }
}

// The line `walls` and its lines `wall`, for the first sections and so many stages.
pub fn wall_block(
    s: &[u8],
    p: Place,
    sections: Sections,
    stages: usize,
) -> Heard<[SectionReadings; SectionCount::GREATEST]>
    requires count_le_sections_most { sections.count.0 ≤ sections_most }
    requires ready { Ready s.now p }
    ensures { WallsRead s.now p (map section (take sections.count.0 sections.lines)) stages result }
{
    let walls = counted_line::<WallCount>(s, p, b"walls=");
    let lines = sections.lines;
    wall_rows(
        s,
        walls.place,
        walls.said.0,
        lines,
        sections.count.0,
        stages,
    )
}
