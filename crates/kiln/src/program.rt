// What the program prints.
ghost use Rattle.std.specs.Prelude.{◌≡◌, ◌≤◌, ◌<◌, length, take};
ghost use Rattle.sheet.specs.Quantities.{sheet_most};
ghost use Rattle.pen.specs.Writing.{Written};
ghost use Rattle.answer.specs.Answer.{printed_of};

use crate::answered;
use answer::refusal_text;

// Puts the whole printed text at the front: the report, or the refusal. The first n bytes of the room that was read
// into are the sheet. The room has more bytes than a sheet may have, so that a longer one is seen to be longer and not cut short.
pub fn print(room: &[u8], n: usize, out: &mut [u8; 1024]) -> usize
    requires sheet_most_in_bounds { sheet_most < length room.now }
    requires n_in_bounds { n ≤ length room.now }
    ensures written { Written 0 (printed_of (take n room.now)) out.old out.new result }
    ensures upper_bound { result ≤ length out.new }
{
    let a = answered(&room[..n], out);
    // `Answer` is the struct that C reads: it says by 0 that nothing is refused, since C has no `Option`.
    if a.refusal == 0 {
        return a.length;
    }
    refusal_text(out, a)
}
