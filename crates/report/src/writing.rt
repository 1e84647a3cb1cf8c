// The lines of a report: a key and its figure, one line behind the other.
ghost use Rattle.std.specs.Prelude.{◌≡◌, ◌+◌, ◌≤◌, leb, length, drop};
ghost use Rattle.std.specs.Int.{w64};
ghost use Rattle.std.proofs.Common.{SFits};
ghost use Rattle.text.specs.Decimal.{line};
ghost use Rattle.pen.specs.Writing.{Written};
ghost use Rattle.document.specs.Rules.{Every};
ghost use Rattle.formulas.specs.Items.{shuttle};
ghost use Rattle.formulas.specs.Report.{keys, heat_keys, line_count, lines_text};
ghost use Rattle.report.specs.Lengths.{key_most, line_most, report_most, heats_most};

use crate::{FIRST_HEAT, LINES};
use heat::HEATS;

// No line is longer, whatever its figure.
const LINE_MOST: usize = 30;

// No report is longer.
const MOST: usize = LINES * LINE_MOST;

// The keys of the lines, in their order.
const KEYS: [&[u8]; LINES] = [
    b"firing", b"q1", b"q2", b"q3", b"q5", b"q8", b"in", b"x1", b"x2", b"x3", b"x5", b"x7", b"x8",
    b"x9", b"x10", b"x11", b"useful", b"withset", b"eff1", b"eff2",
];

// How long one line is.
fn line_length(key: &[u8], figure: i64) -> usize
    requires { length key.now ≤ key_most }
    ensures value { result ≡ length (line key.now figure) }
    ensures upper_bound { result ≤ line_most }
{
    key.len() + pen::width(figure) + 2
}

// How long the report is.
fn length(figures: &[i64]) -> usize
    ensures value { result ≡ length (lines_text (keys shuttle) figures.now) }
    ensures upper_bound { result ≤ report_most }
{
    let mut n = 0;
    for (key, figure) in KEYS.iter().zip(figures) {
        n += line_length(key, *figure);
    }
    n
}

// Whether the report has room.
pub fn fits(figures: &[i64; LINES], room: usize) -> bool
    requires { Every (SFits w64) figures.now }
    ensures value { result ≡ leb (length (lines_text (keys shuttle) figures.now)) room }
    ensures figures_len_bound { length (lines_text (keys shuttle) figures.now) ≤ report_most }
{
    // So written for the compiler: docs/DECISIONS.md, "A room for any report is not measured".
    if MOST <= room {
        return true;
    }
    length(figures) <= room
}

// Puts a line for each figure at the front, from the line of that number on, and answers how long they are.
fn write_from(out: &mut [u8], first: usize, figures: &[i64]) -> usize
    requires figures_bound { first + length figures.now ≤ line_count shuttle }
    requires figures_in_bounds { length (lines_text (drop first (keys shuttle)) figures.now) ≤ length out.old }
    ensures { Written 0 (lines_text (drop first (keys shuttle)) figures.now) out.old out.new result }
{
    let mut at = 0;
    for (key, figure) in KEYS[first..].iter().zip(figures) {
        at = pen::line_at(out, at, key, *figure);
    }
    at
}

// Puts the report at the front, and answers how long it is.
pub fn write(out: &mut [u8], figures: &[i64; LINES]) -> usize
    requires { length (lines_text (keys shuttle) figures.now) ≤ length out.old }
    ensures { Written 0 (lines_text (keys shuttle) figures.now) out.old out.new result }
{
    write_from(out, 0, figures)
}

// Puts the heats in joules at the front, under their keys in the report, and answers how long their lines are.
pub fn write_heats(out: &mut [u8], heats: [i64; HEATS]) -> usize
    requires { heats_most ≤ length out.old }
    ensures written { Written 0 (lines_text (heat_keys shuttle) heats) out.old out.new result }
    ensures upper_bound { result ≤ heats_most }
{
    write_from(out, FIRST_HEAT, &heats)
}
