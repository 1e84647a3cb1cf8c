// What every checking constructor does with a number: hold it to its limits, and keep the first fault.
//
// The quantities stand in `quantity`, each an `impl` of one of the two traits. This is a crate of its own, so that what its contracts rule
// out is tried without all of them. `proofs/Laws.antt` has what a constructor's callers may conclude.
#![tactic(auto)]

ghost use Rattle.std.specs.Prelude.{◌≡◌, ◌≤◌, ◌≤ℤ◌, ℕ, ℤ, pos, MatchOption};
ghost use Rattle.limits.specs.Checked.{Measured, Counted, first_fault};

// A number as the sheet gives it, before it is known to be a quantity.
#[derive(Clone, Copy)]
pub struct Number(pub i64);

// The fault stands beside the value and not in its place: outside its limits the least is handed out with it (`Measured`, specs/Checked).
// A quantity within its limits, and the first field so far that was outside its own, 0 for none.
#[derive(Drop)]
pub struct Checked<Q> {
    pub value: Q,
    pub fault: usize,
}

// The fault that was found before, or this field where there was none.
fn first_fault(fault: usize, field: usize) -> usize
    ensures { result ≡ first_fault fault field }
{
    if fault == 0 { field } else { fault }
}

// The number that is given, where it lies between two limits, both of them included.
fn in_range(v: Number, least: i32, greatest: i32) -> Option<i32>
    ensures { MatchOption result (least ≤ℤ v.0 → v.0 ≤ℤ greatest → ⊥) (λ units. (least ≤ℤ units) × (units ≤ℤ greatest) × (units ≡ v.0)) }
{
    let given = v.0;
    if least as i64 <= given && given <= greatest as i64 {
        return Some(given as i32);
    }
    None
}

// The same of a count, which has no sign.
fn in_count(v: Number, least: usize, greatest: usize) -> Option<usize>
    ensures { MatchOption result (pos least ≤ℤ v.0 → v.0 ≤ℤ pos greatest → ⊥)
        (λ number. (least ≤ number) × (number ≤ greatest) × (pos number ≡ v.0)) }
{
    let given = v.0;
    if given >= 0 {
        let number = given as usize;
        if least <= number && number <= greatest {
            return Some(number);
        }
    }
    None
}

// A number held to two limits: outside them the least stands for it, and the field is the fault unless there was one.
pub fn measured(v: Number, least: i32, greatest: i32, fault: usize, field: usize) -> Checked<i32>
    ensures { Measured least greatest v.0 fault field result.value result.fault }
{
    match in_range(v, least, greatest) {
        Some(value) => Checked { value, fault },
        None => Checked {
            value: least,
            fault: first_fault(fault, field),
        },
    }
}

// The same of a count.
pub fn counted(
    v: Number,
    least: usize,
    greatest: usize,
    fault: usize,
    field: usize,
) -> Checked<usize>
    ensures { Counted least greatest v.0 fault field result.value result.fault }
{
    match in_count(v, least, greatest) {
        Some(value) => Checked { value, fault },
        None => Checked {
            value: least,
            fault: first_fault(fault, field),
        },
    }
}

// A measured quantity has a sign, and its limits fit 32 bits.
pub trait Measure: Drop {
    const LEAST: i32;

    const GREATEST: i32;

    ghost LEAST: { ℤ };

    ghost GREATEST: { ℤ };

    // How many units a quantity is.
    ghost amount: { Self → ℤ };

    // A quantity of so many units.
    fn of(units: i32) -> Self
        requires { (LEAST ≤ℤ units) × (units ≤ℤ GREATEST) }
        ensures { amount result ≡ units };

    // Holds a number of the sheet to the limits: outside them the least stands for it, and the field is the fault unless there was one.
    fn checked(v: Number, fault: usize, field: usize) -> Checked<Self>
        ensures { Measured LEAST GREATEST v.0 fault field (amount result.value) result.fault }
    {
        let read = measured(v, Self::LEAST, Self::GREATEST, fault, field);
        Checked {
            value: Self::of(read.value),
            fault: read.fault,
        }
    }

    ghost ordered: { LEAST ≤ℤ GREATEST };
}

// A counted quantity, an index or a code has none.
pub trait Count: Drop {
    const LEAST: usize;

    const GREATEST: usize;

    ghost LEAST: { ℕ };

    ghost GREATEST: { ℕ };

    // The number that a quantity is.
    ghost amount: { Self → ℕ };

    // A quantity of this number.
    fn numbered(number: usize) -> Self
        requires { (LEAST ≤ number) × (number ≤ GREATEST) }
        ensures { amount result ≡ number };

    // Holds a number of the sheet to the limits, as a measured quantity is held to its own.
    fn checked(v: Number, fault: usize, field: usize) -> Checked<Self>
        ensures { Counted LEAST GREATEST v.0 fault field (amount result.value) result.fault }
    {
        let read = counted(v, Self::LEAST, Self::GREATEST, fault, field);
        Checked {
            value: Self::numbered(read.value),
            fault: read.fault,
        }
    }

    ghost ordered: { LEAST ≤ GREATEST };
}
