// A plain line of a sheet in one pass: its key (`keyed`), and its numbers (`row`). Where anything is not plainly as it should be they say no and
// name no fault; the crate `form` then reads the line with care.
#![tactic(auto)]

ghost use Rattle.std.specs.Prelude.{◌≡◌, ◌<◌, ◌≤◌, length, IfSome};
ghost use Rattle.sheet.specs.Quantities.{fields_most};
ghost use Rattle.quick.specs.Key.{standing};
ghost use Rattle.quick.specs.Number.{Number};
ghost use Rattle.quick.specs.Row.{RowRead};

use sheet::FIELDS_MOST;

// A number and the place after the byte that closes it.
#[derive(Drop)]
struct Whole {
    value: i64,
    next: usize,
}

// Whether the key stands at a place within the text, with no LF in it.
pub fn keyed(s: &[u8], at: usize, key: &[u8]) -> bool
    requires { at ≤ length s.now }
    ensures { result ≡ standing s.now at key.now }
{
    s[at..].starts_with(key) && !key.contains(&b'\n')
}

// Reads n numbers with commas between them and an LF behind them into the first n of v, and answers the place after them, or none.
// A number that begins with no digit is left to `below_zero`, so that `number` knows of no sign:
// docs/DECISIONS.md, "A plain line is read in one pass, into an array that is lent".
pub fn row(s: &[u8], start: usize, n: usize, v: &mut [i64; FIELDS_MOST]) -> Option<usize>
    requires { n ≤ fields_most }
    ensures { RowRead s.now start n v.old v.new result }
{
    let mut at = start;
    for i in 0..n {
        let c = if i + 1 == n { b'\n' } else { b',' };
        let q = if at < s.len() && !s[at].is_ascii_digit() {
            below_zero(s, at, c)?
        } else {
            number(s, at, c)?
        };
        v[i] = q.value;
        if i + 1 == n {
            return Some(q.next);
        }
        at = q.next;
    }
    None
}

// The number with a minus at a place that the byte c closes.
fn below_zero(s: &[u8], at: usize, c: u8) -> Option<Whole>
    requires c_bound { c < 45 }
    requires at_in_bounds { at < length s.now }
    ensures { IfSome result (λ q. Number s.now at c q.value q.next) }
{
    if s[at] != b'-' {
        return None;
    }
    let q = number(s, at + 1, c)?;
    (0 < q.value).then_some(Whole {
        value: -q.value,
        next: q.next,
    })
}

// The number without a sign at a place that the byte c closes.
fn number(s: &[u8], at: usize, c: u8) -> Option<Whole>
    requires { c < 48 }
    ensures { IfSome result (λ q. Number s.now at c q.value q.next) }
{
    if s.len() <= at {
        return None;
    }
    let first = s[at].wrapping_sub(b'0');
    if 9 < first {
        return None;
    }
    // As many bytes as a number can have with the one that closes it: nothing but that one follows a 0.
    let most = if first == 0 { 2 } else { 10 };
    let end = at + (s.len() - at).min(most);
    let mut m = u64::from(first);
    for k in at + 1..end {
        let d = s[k].wrapping_sub(b'0');
        if 9 < d {
            return (s[k] == c).then_some(Whole {
                value: m as i64,
                next: k + 1,
            });
        }
        m = m * 10 + u64::from(d);
    }
    None
}
