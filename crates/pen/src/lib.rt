// Writing lines, numbers and bytes into the part of a lent slice that begins at a place: their text is what crate `text` says it is.
#![tactic(auto)]

ghost use Rattle.std.specs.Prelude.{◌≡◌, ◌+◌, ◌≤◌, length, nat_abs};
ghost use Rattle.text.specs.Decimal.{digits, decimal, line};
ghost use Rattle.pen.specs.Writing.{Written};
ghost use Rattle.pen.specs.Refused.{behind_comma, refused_at, refused_at_most};

// How much room a number's text takes.
pub fn width(z: i64) -> usize
    ensures { result ≡ length (decimal z) }
{
    let n = digit_count(arith::magnitude(z));
    if z < 0 { n + 1 } else { n }
}

// How many digits a number has.
#[tactic(auto, using(crate::proofs::Digits::counted))]
fn digit_count(n: u64) -> usize
    ensures { result ≡ length (digits n) }
{
    match n.checked_ilog10() {
        Some(power) => power as usize + 1,
        None => 1,
    }
}

// Puts a line of the report, `key=z` and LF, into the part that begins at a place, and answers where it ends.
pub fn line_at(out: &mut [u8], at: usize, key: &[u8], z: i64) -> usize
    requires { at + length (line key.now z) ≤ length out.old }
    ensures { Written at (line key.now z) out.old out.new result }
{
    at + put_line(&mut out[at..], key, z)
}

// Puts a line at the front, and answers how long it is.
fn put_line(out: &mut [u8], key: &[u8], z: i64) -> usize
    requires { length (line key.now z) ≤ length out.old }
    ensures { Written 0 (line key.now z) out.old out.new result }
{
    let a = bytes_at(out, 0, key);
    let b = bytes_at(out, a, b"=");
    let c = number_at(out, b, z);
    bytes_at(out, c, b"\n")
}

// Puts a number's text at a place, and answers where it ends.
pub fn number_at(out: &mut [u8], at: usize, z: i64) -> usize
    requires { at + length (decimal z) ≤ length out.old }
    ensures { Written at (decimal z) out.old out.new result }
{
    let n = arith::magnitude(z);
    if z < 0 {
        let next = bytes_at(out, at, b"-");
        return digits_at(out, next, n);
    }
    digits_at(out, at, n)
}

// Puts digits at a place, the last of them first, and answers where they end.
fn digits_at(out: &mut [u8], at: usize, n: u64) -> usize
    requires { at + length (digits n) ≤ length out.old }
    ensures { Written at (digits n) out.old out.new result }
{
    let end = at + digit_count(n);
    let mut rest = n;
    for i in (at..end).rev() {
        out[i] = b'0' + (rest % 10) as u8;
        rest /= 10;
    }
    end
}

// Puts bytes at a place, and answers where they end. One by one, for who links the library: docs/DECISIONS.md, "A report's bytes are put one by one".
pub fn bytes_at(out: &mut [u8], at: usize, src: &[u8]) -> usize
    requires { at + length src.now ≤ length out.old }
    ensures { Written at src.now out.old out.new result }
{
    for i in 0..src.len() {
        out[at + i] = src[i];
    }
    at + src.len()
}

// Puts a comma and a number, and answers where they end.
pub fn behind_comma(out: &mut [u8], at: usize, number: u32) -> usize
    requires { at + length (behind_comma number) ≤ length out.old }
    ensures { Written at (behind_comma number) out.old out.new result }
{
    let behind = bytes_at(out, at, b",");
    number_at(out, behind, i64::from(number))
}

// Puts `refused=NUMBER,PLACE` at the front, with which every program begins a refusal, and answers how long it is.
#[tactic(auto, using(crate::proofs::Numbers::texts))]
pub fn refused_at(out: &mut [u8], number: u32, place: u32) -> usize
    requires { refused_at_most ≤ length out.old }
    ensures written { Written 0 (refused_at number place) out.old out.new result }
    ensures upper_bound { result ≤ refused_at_most }
{
    let word = bytes_at(out, 0, b"refused=");
    let behind = number_at(out, word, i64::from(number));
    behind_comma(out, behind, place)
}
