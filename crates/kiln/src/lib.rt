// The balance of a sheet: its report in a lent slice, or a refusal with its line and its field; for other crates, and as text for a program.
#![tactic(auto)]

mod program;

ghost use Rattle.std.specs.Prelude.{◌≡◌, length};
ghost use Rattle.answer.specs.Answer.{answer_of, buffer_of};
ghost use Rattle.kiln.specs.Steps.{Short};

pub use answer::Answer;
use answer::{refused, reported};
pub use program::print;

// The answer, and that a report is short.
fn answered(sheet: &[u8], room: &mut [u8]) -> Answer
    ensures value { result ≡ answer_of sheet.now (length room.old) }
    ensures room_after { room.new ≡ buffer_of sheet.now room.old }
    ensures short { Short sheet.now }
{
    // So written for the compiler: docs/DECISIONS.md, "`kiln` calls `judged` and not `read`".
    let l = reader::judged(sheet);
    let p = l.place;
    // A place says its refusal by a number, 0 for none: docs/DECISIONS.md, "A place is four numbers".
    if p.number == 0 {
        let firing = l.said;
        let head = firing.head;
        let heats = heat::balance(firing);
        let figures = report::figures(head.firing, head.product, heats);
        // So written for the compiler: docs/DECISIONS.md, "The figures are lent to who writes them".
        return reported(&figures, room);
    }
    refused(p.number, p.line, p.field)
}

// The balance of a sheet: the report at the front of the room and its length, or a refusal, and then no byte of the room changes.
pub fn balance(sheet: &[u8], room: &mut [u8]) -> Answer
    ensures value { result ≡ answer_of sheet.now (length room.old) }
    ensures room_after { room.new ≡ buffer_of sheet.now room.old }
{
    answered(sheet, room)
}
