// What the program prints.
ghost use Rattle.std.specs.Prelude.{◌≡◌, ◌≤◌, ◌<◌, length, take};
ghost use Rattle.sheet.specs.Quantities.{sheet_most};
ghost use Rattle.pen.specs.Writing.{Written};
ghost use Rattle.answer.specs.Answer.{joules_of};

use answer::{refusal_text, refused};

// Puts the whole printed text at the front: the heats in joules, or the refusal. The first n bytes of the room that was read
// into are the sheet. The room has more bytes than a sheet may have, so that a longer one is seen to be longer and not cut short.
pub fn print(room: &[u8], n: usize, out: &mut [u8; 1024]) -> usize
    requires sheet_most_in_bounds { sheet_most < length room.now }
    requires n_in_bounds { n ≤ length room.now }
    ensures written { Written 0 (joules_of (take n room.now)) out.old out.new result }
    ensures upper_bound { result ≤ length out.new }
{
    match reader::read(&room[..n]) {
        Ok(sheet) => report::write_heats(out, heat::balance(sheet)),
        Err(e) => {
            let a = refused(e.number, e.line, e.field);
            refusal_text(out, a)
        }
    }
}
