// A square of coefficients as an array of lines, and its elimination. A row of it is called a line, since `Row` is the
// number of a strip's row. `rows` and `columns` say how many lines and columns count; they may differ.
#![tactic(auto)]

ghost use Rattle.std.specs.Prelude.{◌≡◌, List, ℕ, ◌≤◌, ◌<◌, get_or, None, MatchOption, option_map};
ghost use Rattle.std.specs.Result.{result_err};
ghost use Rattle.strips.specs.Strips.{added_scaled};
ghost use Rattle.square.specs.Steps.{side, stepped, lifted, pivot_from, unit_square};
ghost use Rattle.square.specs.Elimination.{eliminated};
ghost use Rattle.square.specs.Columns.{Holds, EntriesOf, Multipliers};

// The lines of a square, and its columns: the largest kA of an accepted profile.
pub const SIDE: usize = 80;

// One line: the coefficients of one equation.
#[derive(Clone, Copy)]
pub struct Line {
    pub c: [u8; SIDE],
}

// The first column without a pivot, and the lines of the square as far as it is reduced. From them a vector is read off
// that the square takes to zero.
#[derive(Drop)]
pub struct Singular {
    pub column: usize,
    pub lines: [Line; SIDE],
}

// A step of the elimination: line p is added to line r where they are two, and then c(i) times line r to each line i
// below `rows`.
#[derive(Clone, Copy)]
struct Step {
    r: usize,
    p: usize,
    c: [u8; SIDE],
    rows: usize,
    ghost inside: { (r < side) × (p < side) × (rows ≤ side) },
}

impl Line {
    // The entry in column j.
    fn at(&self, j: usize) -> u8
        requires { j < side }
        ensures { Holds self.now.c j result }
    {
        self.c[j]
    }

    // Adds f times the line y.
    fn add(&mut self, y: &Line, f: u8)
        ensures { self.new ≡ record { c = added_scaled f 0 y.now.c self.old.c } }
    {
        strips::add_scaled(&mut self.c, 0, &y.c, f);
    }
}

// The entries of column j in the lines below `rows`.
fn column_of(s: &[Line; SIDE], j: usize, rows: usize) -> [u8; SIDE]
    requires { (j < side) × (rows ≤ side) }
    ensures { EntriesOf s.now j rows result }
{
    let mut entries = [0u8; SIDE];
    for (i, line) in s[..rows].iter().enumerate() {
        entries[i] = line.at(j);
    }
    entries
}

// The first line from `from` on, below `rows`, whose entry in the column is not 0.
fn find_pivot(entries: &[u8; SIDE], from: usize, rows: usize) -> Option<usize>
    requires { rows ≤ side }
    ensures { (s : List Line) (j : ℕ) → EntriesOf s j rows entries.now → result ≡ pivot_from s j from rows }
{
    (from..rows).find(|&i| entries[i] != 0)
}

// What each line is given of line r, so that the column has 1 there and 0 elsewhere: the entry times the inverse of the
// pivot, and in line r itself what makes the pivot 1. The pivot is the entry of line p. Where p is not r, the entry of
// line r is 0 and becomes the pivot when line p is added to it.
fn multipliers(entries: &[u8; SIDE], r: usize, p: usize) -> [u8; SIDE]
    requires { (r < side) × (p < side) × (0 < get_or entries.now p 0) }
    ensures { Multipliers entries.now r p result }
{
    let v = gf256::inverse_of(entries[p]);
    let mut c = [0u8; SIDE];
    strips::add_scaled(&mut c, 0, entries, v);
    c[r] = 1 ^ v;
    c
}

// Line p is added to line r where they are two.
fn lift(s: &mut [Line; SIDE], r: usize, p: usize)
    requires { (r < side) × (p < side) }
    ensures { s.new ≡ lifted r p s.old }
{
    if p != r {
        let y = s[p];
        s[r].add(&y, 1);
    }
}

fn unit_square() -> [Line; SIDE]
    ensures { result ≡ unit_square side }
{
    let mut s = [Line { c: [0u8; SIDE] }; SIDE];
    for (i, line) in s.iter_mut().enumerate() {
        line.c[i] = 1;
    }
    s
}

impl Step {
    ghost use Rattle.square.specs.Clearing.{StepOf, after_step};

    // The step that clears column r of the square; none where the column has no pivot.
    fn of(s: &[Line; SIDE], r: usize, rows: usize) -> Option<Step>
        requires { (r < side) × (rows ≤ side) }
        ensures { MatchOption result (pivot_from s.now r r rows ≡ None) (StepOf s.now r rows) }
    {
        let entries = column_of(s, r, rows);
        let p = find_pivot(&entries, r, rows)?;
        let c = multipliers(&entries, r, p);
        Some(Step { r, p, c, rows })
    }

    // The square after the step: it goes by value from step to step, as document 01 asks. A line with the multiplier 0 is
    // left alone.
    fn apply(&self, mut s: [Line; SIDE]) -> [Line; SIDE]
        ensures { result ≡ after_step self.now s }
    {
        lift(&mut s, self.r, self.p);
        let y = s[self.r];
        for (i, line) in s[..self.rows].iter_mut().enumerate() {
            if self.c[i] != 0 {
                line.add(&y, self.c[i]);
            }
        }
        s
    }
}

// The inverse of the square, if rows and columns are equally many. Not inlined: its squares leave the stack with it.
#[inline(never)]
pub fn invert(mut s: [Line; SIDE], rows: usize, columns: usize) -> Result<[Line; SIDE], Singular>
    requires { (rows ≤ side) × (columns ≤ side) }
    ensures { result ≡ eliminated rows columns s (unit_square side) }
{
    let mut t = unit_square();
    for r in 0..columns {
        let Some(step) = Step::of(&s, r, rows) else {
            return Err(Singular {
                column: r,
                lines: s,
            });
        };
        s = step.apply(s);
        // Put in a local first: the borrow checker does not cover a result that is laid into a lent array.
        let right = step.apply(t);
        t = right;
    }
    Ok(t)
}

// The first column without a pivot: half the work, for a survey. Its loop keeps no right half, so that the two stay two.
pub fn judge(mut s: [Line; SIDE], rows: usize, columns: usize) -> Option<usize>
    requires { (rows ≤ side) × (columns ≤ side) }
    ensures { result ≡ option_map (λ e. e.column) (result_err (eliminated rows columns s (unit_square side))) }
{
    for r in 0..columns {
        let Some(step) = Step::of(&s, r, rows) else {
            return Some(r);
        };
        s = step.apply(s);
    }
    None
}
