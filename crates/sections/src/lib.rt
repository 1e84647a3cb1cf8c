// The sections of the surface, and where one stands by its number, which must not be given twice.
#![tactic(auto)]

ghost use Rattle.std.specs.Prelude.{◌≡◌, ◌≤◌, length, take};
ghost use Rattle.std.proofs.Math.Option.{none};
ghost use Rattle.sheet.specs.Shown.{section};
ghost use Rattle.sheet.specs.Quantities.{sections_most};
ghost use Rattle.document.specs.Document01.{section_line};
ghost use Rattle.document.specs.Reader.{read_line};
ghost use Rattle.document.specs.Rows.{section_of};
ghost use Rattle.due.specs.Place.{Ready, After};
ghost use Rattle.document.specs.Schema.{plain};
ghost use Rattle.due.specs.Taking.{from, Taken};
ghost use Rattle.sections.specs.Sections.{numbers, place_of, NewSection, SectionsAfter, SectionsRead};

use due::{Heard, Place, counted_line, line, ruled};
use limits::{Checked, Count, Measure, Number};
use quantity::kiln::{Area, SectionNumber, SectionPlace};
use quantity::sheet::SectionCount;
use sheet::{FIELDS_MOST, Refusal, Section, Sections};

// A section from the three numbers of its line.
fn section_of(v: [Number; FIELDS_MOST]) -> Checked<Section>
    ensures { Taken section_line.fields (from 0 3 v) result.fault (λ zs. section result.value ≡ section_of (plain zs)) }
{
    let number = SectionNumber::checked(v[0], 0, 1);
    let place = SectionPlace::checked(v[1], number.fault, 2);
    let area = Area::checked(v[2], place.fault, 3);
    Checked {
        value: Section {
            number: number.value,
            place: place.value,
            area: area.value,
        },
        fault: area.fault,
    }
}

// What is left of a line behind `due::line` has the line's own promise.
// One line `section`.
fn section_line(s: &[u8], p: Place) -> Heard<Section>
    requires { Ready s.now p }
    ensures { After s.now p (read_line section_line (λ row. none)) result.place (λ row. section result.said ≡ section_of row) }
{
    line(s, p, b"section=", 3, section_of)
}

// The numbers of the sections, in their order, so that a section can be looked up without copying all of them.
pub fn numbers_of(sections: [Section; SectionCount::GREATEST]) -> [usize; SectionCount::GREATEST]
    ensures { result ≡ numbers sections }
{
    let mut r = [0; SectionCount::GREATEST];
    for i in 0..SectionCount::GREATEST {
        let x = sections[i];
        r[i] = x.number.0;
    }
    r
}

// How many of the first `count` numbers stand before this one, or `count` where it is not among them.
pub fn section_place(
    numbers: &[usize; SectionCount::GREATEST],
    count: usize,
    number: SectionNumber,
) -> usize
    requires { (count ≤ sections_most) × (count ≤ length numbers.now) }
    ensures { result ≡ place_of number.0 (take count numbers.now) }
{
    for i in 0..count {
        if numbers[i] == number.0 {
            return i;
        }
    }
    count
}

// One line `section`, whose number must not stand among the first i.
fn new_section(
    s: &[u8],
    p: Place,
    above: &[usize; SectionCount::GREATEST],
    i: usize,
) -> Heard<Section>
    requires i_le_sections_most { (i ≤ sections_most) × (i ≤ length above.now) }
    requires ready { Ready s.now p }
    ensures { NewSection s.now p above.now i result }
{
    let section = section_line(s, p);
    let known = section_place(above, i, section.said.number);
    Heard {
        place: ruled(p.line, section.place, known < i, Refusal::SectionTwice),
        said: section.said,
    }
}

// k lines `section`.
fn section_rows(s: &[u8], start: Place, k: usize) -> Heard<[Section; SectionCount::GREATEST]>
    requires k_le_sections_most { k ≤ sections_most }
    requires ready { Ready s.now start }
    ensures { SectionsAfter s.now start k result.place result.said }
{
    let none = sheet::blank::section();
    let mut numbers = [none.number.0; SectionCount::GREATEST];
    let mut said = [none; SectionCount::GREATEST];
    let mut place = start;
    for i in 0..k {
        let section = new_section(s, place, &numbers, i);
        said[i] = section.said;
        numbers[i] = section.said.number.0;
        place = section.place;
    }
    Heard { place, said }
}

// The line `sections` and its lines `section`.
pub fn section_block(s: &[u8], p: Place) -> Heard<Sections>
    requires { Ready s.now p }
    ensures { SectionsRead s.now p result }
{
    let count = counted_line::<SectionCount>(s, p, b"sections=");
    let read = section_rows(s, count.place, count.said.0);
    let lines = read.said;
    Heard {
        place: read.place,
        said: Sections {
            count: count.said,
            lines,
        },
    }
}
