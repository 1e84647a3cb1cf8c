// From any byte string: the sheet that it is the text of, or the refusal and its line.
#![tactic(auto)]

mod whole;

ghost use Rattle.document.specs.Editions.{document};
ghost use Rattle.document.specs.Reader.{read_of};
ghost use Rattle.reader.specs.Whole.{Judged, Answers};

use crate::whole::{opening, verdict};
use due::Heard;
use lines::all_lines;
use sheet::Sheet;
pub use whole::Rejection;

// The firing that a sheet gives and the place behind its last line, or the first rule that the sheet breaks as the place; what the firing
// then is stays open. Of a text that is too long nothing is looked at.
// One way through it, for the compiler: docs/DECISIONS.md, "`kiln` calls `judged` and not `read`".
pub fn judged(s: &[u8]) -> Heard<Sheet>
    ensures { Judged s.now (read_of document s.now) result }
{
    let n = s.len();
    let start = opening(n);
    let looked = if start.number == 0 { n } else { 0 };
    let l = all_lines(&s[..looked], start);
    let place = verdict(n, l.place, l.said);
    Heard {
        place,
        said: l.said,
    }
}

// The firing that a sheet gives, or the number, the field and the line of the first rule that it breaks.
pub fn read(s: &[u8]) -> Result<Sheet, Rejection>
    ensures { Answers (read_of document s.now) result }
{
    let l = judged(s);
    let p = l.place;
    if p.number == 0 {
        return Ok(l.said);
    }
    Err(Rejection {
        number: p.number,
        field: p.field,
        line: p.line,
    })
}
