// What is done to whole strips. No table is read here: the loops over bytes hold shifts, comparisons and exclusive ors
// alone.
#![tactic(auto)]

ghost use Rattle.std.specs.Prelude.{◌≡◌, ℕ, ◌+◌, ◌*◌, ◌%◌, ◌^◌, ◌<◌, ◌≤◌, length, take, drop, slice_index};
ghost use Rattle.lists.specs.Listed.{listed};
ghost use Rattle.gf256.specs.Field.{double};
ghost use Rattle.strips.specs.Strips.{max_length, combination_of, SourcesFit, strip_at};
ghost use Rattle.strips.specs.Strips.{added_by, added_scaled, added_strip, doubled_strip, used_up};
ghost use Rattle.strips.specs.Planes.{bits_at, offsets_of, added_with, part_of, added_four, Alike, Gives};

// The most sources of a combination, and its longest strip.
const MAX_SOURCES: usize = 80;

const MAX_LENGTH: usize = 2048;

// What stands for a source past the last.
static ZEROS: [u8; MAX_LENGTH] = [0; MAX_LENGTH];

// Copies the strip of src that starts at `at`.
pub fn copy(dst: &mut [u8], src: &[u8], at: usize)
    requires { at + length dst.old ≤ length src.now }
    ensures { dst.new ≡ strip_at src.now at (length dst.old) }
{
    dst.copy_from_slice(&src[at..at + dst.len()]);
}

// Adds f of each byte of a strip to the strip of x that starts at `at`.
fn add_by<F: Fn(u8) -> u8>(x: &mut [u8], at: usize, src: &[u8], f: F)
    requires fits { at + length src.now ≤ length x.old }
    requires callable { F.IsAlwaysCallable f }
    ensures { (g : ℕ → ℕ) → Gives (F.post f) g → x.new ≡ added_by g at src.now x.old }
{
    for (b, v) in src.iter().enumerate() {
        x[at + b] ^= f(*v);
    }
}

// Adds a strip to the strip of x that starts at `at`.
pub fn add(x: &mut [u8], at: usize, src: &[u8])
    requires { at + length src.now ≤ length x.old }
    ensures { x.new ≡ added_strip at src.now x.old }
{
    add_by(x, at, src, |v| v);
}

// Adds c times a strip to the strip of x that starts at `at`.
pub fn add_scaled(x: &mut [u8], at: usize, src: &[u8], c: u8)
    requires { at + length src.now ≤ length x.old }
    ensures { x.new ≡ added_scaled c at src.now x.old }
{
    add_by(x, at, src, |v| gf256::mul(c, v));
}

// Twice each byte of a strip.
fn double_strip(strip: &mut [u8])
    ensures { strip.new ≡ doubled_strip strip.old }
{
    for v in strip.iter_mut() {
        *v = gf256::twice(*v);
    }
}

// Adds a strip if the lowest bit of y is set.
fn add_bit(x: &mut [u8], at: usize, strip: &[u8], y: u8)
    requires { at + length strip.now ≤ length x.old }
    ensures { x.new ≡ added_scaled (y % 2) at strip.now x.old }
{
    if y % 2 == 1 {
        add(x, at, strip);
    }
}

// Adds c times a strip, as `add_scaled` does, and may use the strip up (`used_up`). A small c is taken bit by bit, with
// the strip doubled in place; from 32 on that can take longer than a product for each byte.
pub fn add_multiple(x: &mut [u8], at: usize, strip: &mut [u8], c: u8)
    requires { at + length strip.old ≤ length x.old }
    ensures { (x.new ≡ added_scaled c at strip.old x.old)
        × (strip.new ≡ used_up c strip.old) }
{
    if c >= 32 {
        add_scaled(x, at, strip, c);
        return;
    }
    add_bit(x, at, strip, c);
    for i in 1..u8::BITS - c.leading_zeros() {
        double_strip(strip);
        add_bit(x, at, strip, c >> i);
    }
}

// The same byte everywhere.
pub fn fill(dst: &mut [u8], value: u8)
    ensures { dst.new ≡ listed (length dst.old) (λ b. value) }
{
    dst.fill(value);
}

// Adds four strips to f of each byte of a strip.
fn add_four<F: Fn(u8) -> u8>(dst: &mut [u8], s0: &[u8], s1: &[u8], s2: &[u8], s3: &[u8], f: F)
    requires alike { Alike dst.old s0.now s1.now s2.now s3.now }
    requires callable { F.IsAlwaysCallable f }
    ensures { (g : ℕ → ℕ) → Gives (F.post f) g → dst.new ≡ added_four g dst.old s0.now s1.now s2.now s3.now }
{
    for (b, v) in dst.iter_mut().enumerate() {
        *v = f(*v) ^ s0[b] ^ s1[b] ^ s2[b] ^ s3[b];
    }
}

// Gathers the offsets of the sources whose weight has bit i, in the room lent. A source is left out by writing the next
// one over it: a branch on random bits would cost more.
fn gather<'a>(
    room: &'a mut [usize],
    weights: &[u8],
    i: u32,
    first: usize,
    stride: usize,
) -> &'a [usize]
    requires { (length weights.now ≤ length room.old) × (i < 8)
        × ((q : ℕ) → q < length weights.now → first + q * stride < 2 ^ 64) }
    ensures { result.now ≡ offsets_of (bits_at i weights.now) first stride }
{
    let mut count = 0;
    for (q, w) in weights.iter().enumerate() {
        room[count] = first + q * stride;
        count += usize::from((*w >> i) % 2);
    }
    &room[..count]
}

// The sources of a plane: strips of len bytes in src, by their offsets.
#[derive(Clone, Copy)]
struct Plane<'a, 'b> {
    src: &'a [u8],
    at: &'b [usize],
    len: usize,
    ghost short: { len ≤ max_length },
    ghost inside: { (j : ℕ) → j < length at.now → slice_index at.now j + len ≤ length src.now },
}

impl<'a> Plane<'a, '_> {
    // The source with number j, or zeros past the last.
    fn part(&self, j: usize) -> &'a [u8]
        ensures { result.now ≡ part_of self.now.at.now self.now.src.now j self.now.len }
    {
        match self.at.get(j) {
            Some(from) => &self.src[*from..*from + self.len],
            None => &ZEROS[..self.len],
        }
    }

    // A pass over a plane: adds the four sources from number j on to f of each byte of a strip.
    fn pass<F: Fn(u8) -> u8>(&self, dst: &mut [u8], j: usize, f: F)
        requires fits { (length dst.old ≡ self.now.len) × (j ≤ length self.now.at.now) }
        requires callable { F.IsAlwaysCallable f }
        ensures { (g : ℕ → ℕ) → Gives (F.post f) g
            → dst.new ≡ added_with g (take 4 (drop j self.now.at.now)) self.now.src.now dst.old }
    {
        add_four(
            dst,
            self.part(j),
            self.part(j + 1),
            self.part(j + 2),
            self.part(j + 3),
            f,
        );
    }

    // Doubles a strip and adds the sources, four in a pass.
    fn double_add(&self, dst: &mut [u8])
        requires { length dst.old ≡ self.now.len }
        ensures { dst.new ≡ added_with double self.now.at.now self.now.src.now dst.old }
    {
        self.pass(dst, 0, gf256::twice);
        for j in (4..self.at.len()).step_by(4) {
            self.pass(dst, j, |v| v);
        }
    }
}

// The sum of the sources at first, first + stride, .. with these weights, by Horner's rule over the weights' bits.
pub fn combine(dst: &mut [u8], src: &[u8], first: usize, stride: usize, weights: &[u8])
    requires { SourcesFit first stride (length weights.now) (length dst.old) (length src.now) }
    ensures { dst.new ≡ combination_of weights.now src.now first stride (length dst.old) }
{
    let mut room = [0usize; MAX_SOURCES];
    let len = dst.len();
    dst.fill(0);
    for i in (0..u8::BITS).rev() {
        let at = gather(&mut room, weights, i, first, stride);
        Plane { src, at, len }.double_add(dst);
    }
}
