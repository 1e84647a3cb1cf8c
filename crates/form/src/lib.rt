// The form of one line of a sheet, judged with care: one thing is asked after the other, in the definition's order, so that the first fault has
// a name.
#![tactic(auto)]

ghost use Rattle.std.specs.Prelude.{◌≡◌, ◌≤◌};
ghost use Rattle.sheet.specs.Quantities.{fields_most};
ghost use Rattle.document.specs.Schema.{pieces};
ghost use Rattle.form.specs.Formed.{zeros, line_at};
ghost use Rattle.form.specs.Fields.{fields_of};

use sheet::{FIELDS_MOST, Refusal};

// What was read where a line is due and stands in form: its numbers, and the place after it.
#[derive(Drop)]
pub struct Formed {
    pub next: usize,
    pub values: [i64; FIELDS_MOST],
}

// The line at a place, or why it is refused.
pub fn judged(s: &[u8], at: usize, key: &[u8], n: usize) -> Result<Formed, Refusal>
    requires { n ≤ fields_most }
    ensures { result ≡ line_at s.now at key.now n }
{
    let e = text::find(s, at, b'\n');
    if s.len() <= e {
        return Err(Refusal::NoLineFeed);
    }
    let v = s[at..e].strip_prefix(key).ok_or(Refusal::WrongKey)?;
    fields(v, n, e + 1)
}

// What stands behind the key of a line that ends before `next`.
fn fields(v: &[u8], n: usize, next: usize) -> Result<Formed, Refusal>
    requires { n ≤ fields_most }
    ensures { result ≡ fields_of n next 0 zeros (pieces 44 v.now) }
{
    if n == 0 || text::count(v, b',') != n - 1 {
        return Err(Refusal::WrongCount);
    }
    let mut values = [0; FIELDS_MOST];
    let mut at = 0;
    for i in 0..n {
        let e = text::find(v, at, b',');
        values[i] = text::number(&v[at..e]).ok_or(Refusal::NotANumber(i + 1))?;
        at = e + 1;
    }
    Ok(Formed { next, values })
}
