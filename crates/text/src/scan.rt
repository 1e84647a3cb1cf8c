// Finding one's way in a line.
ghost use Rattle.std.specs.Prelude.{◌≡◌};
ghost use Rattle.text.specs.Scanning.{find as findIn, count as countIn, begins};

// Where a line or a field ends: the first c at or after a place, or the end.
pub fn find(s: &[u8], at: usize, c: u8) -> usize
    ensures { result ≡ findIn s.now at c }
{
    let rest = &s[at.min(s.len())..];
    at + rest.iter().position(|b| *b == c).unwrap_or(rest.len())
}

// How many commas, or other bytes, a line has.
#[tactic(auto, using(crate::proofs::Scanning::count_by_test))]
pub fn count(s: &[u8], c: u8) -> usize
    ensures { result ≡ countIn s.now c }
{
    s.iter().filter(|b| **b == c).count()
}

// Whether a line has the key that is due.
#[tactic(auto, using(crate::proofs::Scanning::begins_by_parts))]
pub fn starts(s: &[u8], key: &[u8]) -> bool
    ensures { result ≡ begins key.now s.now }
{
    s.starts_with(key)
}
