// Reading a number in the sheet's form.
ghost use Rattle.std.specs.Prelude.{◌≡◌, ◌≤◌};
ghost use Rattle.text.specs.Number.{unsigned as unsignedOf, number_within, number_of};

// The number that a field of the sheet holds.
pub fn number(f: &[u8]) -> Option<i64>
    ensures { result ≡ number_of f.now }
{
    number_within(f, 9)
}

// The number that a field holds where more digits, or fewer, are allowed.
#[tactic(auto, using(crate::proofs::Reading::by_tests))]
pub fn number_within(f: &[u8], most: usize) -> Option<i64>
    requires { most ≤ 18 }
    ensures { result ≡ number_within most f.now }
{
    match f.strip_prefix(b"-") {
        Some(digits) => {
            let n = unsigned(digits, most)?;
            (0 < n).then_some(-n)
        }
        None => unsigned(f, most),
    }
}

// The number that a field without a sign holds.
#[tactic(auto, using(crate::proofs::Reading::by_tests))]
fn unsigned(f: &[u8], most: usize) -> Option<i64>
    requires { most ≤ 18 }
    ensures { result ≡ unsignedOf most f.now }
{
    if f.is_empty() || most < f.len() {
        return None;
    }
    if 1 < f.len() && f[0] == b'0' {
        return None;
    }
    let mut n: u64 = 0;
    for b in f {
        if !b.is_ascii_digit() {
            return None;
        }
        n = n * 10 + u64::from(b - b'0');
    }
    Some(n as i64)
}
