// What is due at a place of the sheet: the form of a line, its ranges and its rule, and the place after it, or the refusal.
#![tactic(auto)]

pub mod stuff;

ghost use Rattle.std.specs.Prelude.{◌≡◌, true, ◌+◌, ◌++◌, ◌≤◌, ◌-◌, length, pos, List, replicate};
ghost use Rattle.std.proofs.Math.Option.{none};
ghost use Rattle.text.specs.Bytes.{bytes};
ghost use Rattle.document.specs.Schema.{Line, at};
ghost use Rattle.document.specs.Reader.{read_line};
ghost use Rattle.due.specs.Taking.{one};
ghost use Rattle.due.specs.Block.{RowsHeard};
ghost use Rattle.sheet.specs.Quantities.{fields_most, sheet_most};
ghost use Rattle.form.specs.Formed.{zeros};
ghost use Rattle.due.specs.Place.{good, going_on, refused_at, Ready, After, ranged as rangedPlace, ruled as ruledPlace};
ghost use Rattle.due.specs.Form.{FormAfter, DueAfter, LineTaken};
ghost use Rattle.due.specs.Taking.{plain_numbers};

use limits::{Checked, Count, Measure, Number};
use sheet::{FIELDS_MOST, Refusal};

// Where the reading stands: before a line, at a place of the text; or refused, with document 01's number of the refusal, the field that it names
// and the line that was refused. That number is 0 for as long as nothing is refused.
// So written for the compiler: docs/DECISIONS.md, "A place is four numbers".
#[derive(Clone, Copy)]
pub struct Place {
    pub number: usize,
    pub field: usize,
    pub line: usize,
    pub at: usize,
}

// What a line or a block of lines says, and the place after it. Where it is refused the place says so, and what is said means nothing.
#[derive(Drop)]
pub struct Heard<T> {
    pub place: Place,
    pub said: T,
}

// The place of a refusal.
pub fn refused(why: Refusal, line: usize) -> Place
    ensures { result ≡ refused_at why line }
{
    Place {
        number: sheet::refusal_number(why),
        field: sheet::refusal_field(why),
        line,
        at: 0,
    }
}

// The place before the line after this one, which begins there.
pub fn onward(line: usize, at: usize) -> Place
    requires { line ≤ sheet_most + 1 }
    ensures { result ≡ going_on line at }
{
    Place {
        number: 0,
        field: 0,
        line: line + 1,
        at,
    }
}

// Reads a line that is not plainly in form, or names its fault and leaves zeros.
pub fn careful(s: &[u8], p: Place, key: &[u8], n: usize, v: &mut [i64; FIELDS_MOST]) -> Place
    requires n_le_fields_most { n ≤ fields_most }
    requires ready { Ready s.now p }
    requires p_value { good p ≡ true }
    requires v_len { length v.old ≡ fields_most }
    ensures { FormAfter s.now p key.now n result v.new }
{
    match form::judged(s, p.at, key, n) {
        Ok(l) => {
            let values = l.values;
            *v = values;
            onward(p.line, l.next)
        }
        Err(why) => {
            *v = [0; FIELDS_MOST];
            refused(why, p.line)
        }
    }
}

// Reads the form of the line that is due into an array of zeros, in one pass where it is plain; a refused place passes through.
// A part of its caller for the compiler, as are all that are marked so here: docs/DECISIONS.md, "A line's place stays out of memory".
#[inline(always)]
fn read_form(s: &[u8], p: Place, key: &[u8], n: usize, v: &mut [i64; FIELDS_MOST]) -> Place
    requires n_le_fields_most { n ≤ fields_most }
    requires ready { Ready s.now p }
    requires v_value { v.old ≡ zeros }
    ensures { FormAfter s.now p key.now n result v.new }
{
    if p.number == 0 {
        if quick::keyed(s, p.at, key) {
            if let Some(next) = quick::row(s, p.at + key.len(), n, v) {
                return onward(p.line, next);
            }
        }
        return careful(s, p, key, n, v);
    }
    p
}

// The numbers of a line as numbers of the sheet.
pub fn numbers(v: [i64; FIELDS_MOST]) -> [Number; FIELDS_MOST]
    ensures { plain_numbers result ≡ v }
{
    let mut r = [Number(0); FIELDS_MOST];
    for i in 0..FIELDS_MOST {
        r[i] = Number(v[i]);
    }
    r
}

// The form of the line that is due, with its numbers.
#[inline(always)]
pub fn due(s: &[u8], p: Place, key: &[u8], n: usize) -> Heard<[Number; FIELDS_MOST]>
    requires n_le_fields_most { n ≤ fields_most }
    requires ready { Ready s.now p }
    ensures { DueAfter s.now p key.now n result }
{
    let mut v = [0; FIELDS_MOST];
    let q = read_form(s, p, key, n, &mut v);
    let said = numbers(v);
    Heard {
        // Put together anew for the compiler: docs/DECISIONS.md, "A line's place stays out of memory".
        place: Place {
            number: q.number,
            field: q.field,
            line: q.line,
            at: q.at,
        },
        said,
    }
}

// The place after a line whose first field outside its range is known, 0 for none.
pub fn ranged(line: usize, q: Place, fault: usize) -> Place
    ensures { result ≡ rangedPlace line q fault }
{
    if q.number == 0 {
        if fault != 0 {
            return refused(Refusal::Outside(fault), line);
        }
    }
    q
}

// The place after a line whose rule may be broken.
pub fn ruled(line: usize, q: Place, broken: bool, why: Refusal) -> Place
    ensures { result ≡ ruledPlace line q broken why }
{
    if q.number == 0 {
        if broken {
            return refused(why, line);
        }
    }
    q
}

// A line of one number that is measured.
#[inline(always)]
pub fn measured_line<Q: Measure>(s: &[u8], p: Place, key: &[u8]) -> Heard<Q>
    requires { Ready s.now p }
    ensures says { (l : Line) → l.key ++ bytes "=" ≡ key.now → l.fields ≡ one Q.LEAST Q.GREATEST →
        After s.now p (read_line l (λ row. none)) result.place (λ row. Q.amount result.said ≡ at row 0) }
    ensures ready { Ready s.now result.place }
{
    let d = due(s, p, key, 1);
    let v = d.said;
    let units = Q::checked(v[0], 0, 1);
    Heard {
        place: ranged(p.line, d.place, units.fault),
        said: units.value,
    }
}

// As with what is measured: the two traits have no limit in common that one function could name.
// A line of one number that is counted.
#[inline(always)]
pub fn counted_line<Q: Count>(s: &[u8], p: Place, key: &[u8]) -> Heard<Q>
    requires { Ready s.now p }
    ensures says { (l : Line) → l.key ++ bytes "=" ≡ key.now → l.fields ≡ one (pos Q.LEAST) (pos Q.GREATEST) →
        After s.now p (read_line l (λ row. none)) result.place (λ row. pos (Q.amount result.said) ≡ at row 0) }
    ensures ready { Ready s.now result.place }
    ensures within { Q.amount result.said ≤ Q.GREATEST }
{
    let d = due(s, p, key, 1);
    let v = d.said;
    let number = Q::checked(v[0], 0, 1);
    Heard {
        place: ranged(p.line, d.place, number.fault),
        said: number.value,
    }
}

// A line of n numbers, of which a thing is taken. The first of its fields that is outside its range refuses the line.
#[inline(always)]
pub fn line<T, F: Fn([Number; FIELDS_MOST]) -> Checked<T>>(
    s: &[u8],
    p: Place,
    key: &[u8],
    n: usize,
    taken: F,
) -> Heard<T>
    requires n_le_fields_most { n ≤ fields_most }
    requires ready { Ready s.now p }
    requires callable { F.IsAlwaysCallable taken }
    ensures says { LineTaken s.now p key.now n (F.post taken) result }
    ensures ready { Ready s.now result.place }
{
    let d = due(s, p, key, n);
    let v = d.said;
    let t = taken(v);
    Heard {
        place: ranged(p.line, d.place, t.fault),
        said: t.value,
    }
}

// So many lines of one kind, laid into an array from its front on; behind them it stays blank.
pub fn rows<T: Copy, const N: usize, F: Fn(Place) -> Heard<T>>(
    start: Place,
    k: usize,
    blank: T,
    line: F,
) -> Heard<[T; N]>
    requires k_le_most { k ≤ N }
    requires first { F.pre line start }
    requires next { (p : Place) (r : Heard T) → F.pre line p → F.post line p r → F.pre line r.place }
    ensures { (xs : List T) × RowsHeard (F.post line) k start result.place xs × (result.said ≡ xs ++ replicate (N - k) blank) }
{
    let mut said = [blank; N];
    let mut place = start;
    for i in 0..k {
        let heard = line(place);
        said[i] = heard.said;
        place = heard.place;
    }
    Heard { place, said }
}
