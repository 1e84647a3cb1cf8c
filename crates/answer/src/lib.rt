// The answer by its four numbers: a refusal, or a report that is put into a lent slice if it fits; and a refusal as a program prints it.
#![tactic(auto)]

ghost use Rattle.std.specs.Prelude.{◌≡◌, ◌+◌, ◌<◌, ◌≤◌, ◌^◌, length};
ghost use Rattle.std.specs.Int.{w64};
ghost use Rattle.std.proofs.Common.{SFits};
ghost use Rattle.pen.specs.Writing.{Written};
ghost use Rattle.document.specs.Rules.{Every};
ghost use Rattle.formulas.specs.Items.{shuttle};
ghost use Rattle.formulas.specs.Report.{keys, lines_text};
ghost use Rattle.report.specs.Lengths.{report_most};
ghost use Rattle.answer.specs.Answer.{refused_as, fitted, placed, refused_text, refused_most};

use report::LINES;
use sheet::Refusal;

// A refusal's number, line and field, 0 for all three where there is none, and the length of the report.
#[repr(C)]
#[derive(Drop)]
pub struct Answer {
    pub refusal: u32,
    pub line: u32,
    pub field: u32,
    pub length: usize,
}

// A refusal, by its number and with its line and its field.
pub fn refused(number: usize, line: usize, field: usize) -> Answer
    requires { (number < 2 ^ 32) × (line < 2 ^ 32) × (field < 2 ^ 32) }
    ensures { result ≡ refused_as number line field }
{
    Answer {
        refusal: number as u32,
        line: line as u32,
        field: field as u32,
        length: 0,
    }
}

// The report at the front of the room, if it fits. Its figures are known, and that it has room, before the first byte is written.
pub fn reported(figures: &[i64; LINES], room: &mut [u8]) -> Answer
    requires { Every (SFits w64) figures.now }
    ensures value { result ≡ fitted (lines_text (keys shuttle) figures.now) (length room.old) }
    ensures room_after { room.new ≡ placed (lines_text (keys shuttle) figures.now) room.old }
    ensures figures_len_bound { length (lines_text (keys shuttle) figures.now) ≤ report_most }
{
    if report::fits(figures, room.len()) {
        let length = report::write(room, figures);
        return Answer {
            refusal: 0,
            line: 0,
            field: 0,
            length,
        };
    }
    let number = sheet::refusal_number(Refusal::NoRoom);
    refused(number, 0, 0)
}

// Puts `refused=NUMBER,LINE,FIELD` and LF at the front, and answers how long it is.
pub fn refusal_text(out: &mut [u8], answer: Answer) -> usize
    requires { refused_most ≤ length out.old }
    ensures written { Written 0 (refused_text answer.refusal answer.line answer.field) out.old out.new result }
    ensures upper_bound { result ≤ refused_most }
{
    let line = pen::refused_at(out, answer.refusal, answer.line);
    let field = pen::behind_comma(out, line, answer.field);
    pen::bytes_at(out, field, b"\n")
}
