// The coupling of strips, pair by pair, and what takes a pair apart.
#![tactic(auto)]

ghost use Rattle.std.specs.Prelude.{◌≡◌, ◌+◌, ◌*◌, ◌<◌, ◌≤◌, length};
ghost use Rattle.algebra.specs.Coupling.{pair};
ghost use Rattle.strips.specs.Strips.{added_scaled};
ghost use Rattle.document.specs.ByteField.{bytes, number};
ghost use Rattle.document.specs.Profile.{max_strip};
ghost use Rattle.document.specs.Encoding.{factor_at, coupled};
ghost use Rattle.coupling.specs.Pairs.{coupled_strips, pair_coupled, multiple_of, uncoupled_strip};

use document::{Profile, Row};

// Couples the upper strip of a pair with the lower one, which lies before it in memory. Both are copied out first, so
// that each loop reads the partner from another slice than the one it writes; the upper strip's copy is used up.
fn couple_pair(x: &mut [u8], upper: usize, lower: usize, s: usize, t: u8)
    requires { (s ≤ max_strip) × (lower + s ≤ upper) × (upper + s ≤ length x.old) }
    ensures { x.new ≡ coupled_strips t upper lower s x.old }
{
    let mut u = [0u8; Profile::MAX_STRIP];
    let mut v = [0u8; Profile::MAX_STRIP];
    u[..s].copy_from_slice(&x[upper..upper + s]);
    v[..s].copy_from_slice(&x[lower..lower + s]);
    strips::add(x, upper, &v[..s]);
    strips::add_multiple(x, lower, &mut u[..s], t);
}

// Couples strip z with its partner, where z is the upper one of the two; otherwise the array stays as it is.
fn couple_strip(x: &mut [u8], p: Profile, z: usize)
    requires { (length x.old ≡ p.n * p.a * p.s) × (z < p.n * p.a) }
    ensures { x.new ≡ pair_coupled p z x.old }
{
    let q = p.place(z);
    let i = q.row.0;
    let l = q.node.0 % p.a;
    if i < l {
        let r = p.partner(q);
        let row = r.row;
        let upper = p.start(q);
        let lower = p.start(r);
        let t = p.constant(row, i);
        couple_pair(x, upper, lower, p.s, t);
    }
}

// Couples the rows of an array of any bytes, pair by pair in place.
pub fn couple(x: &mut [u8], p: Profile)
    requires { length x.old ≡ p.n * p.a * p.s }
    ensures { x.new ≡ coupled p x.old }
{
    for z in 0..p.n * p.a {
        couple_strip(x, p, z);
    }
}

// The determinant of the strip at a row and a local column and its partner: one of the two factors is 1, or both are 0.
pub fn determinant(p: Profile, i: Row, l: usize) -> u8
    ensures { result ≡ number (pair bytes (factor_at p) i.0 l) }
{
    let row = i.0;
    if l < row {
        return 1 ^ p.constant(i, l);
    }
    if row < l {
        return 1 ^ p.constant(Row(l), row);
    }
    1
}

// Adds c times a strip. Half of the factors are 1, which needs no product. For another small one the strip is copied,
// since `add_multiple` uses its strip up; from 25 on the copy can cost more than it saves.
pub fn add_times(x: &mut [u8], strip: &[u8], c: u8)
    requires { (length strip.now ≡ length x.old) × (length x.old ≤ max_strip) }
    ensures { x.new ≡ added_scaled c 0 strip.now x.old }
{
    if c == 1 {
        strips::add(x, 0, strip);
        return;
    }
    if c >= 25 {
        strips::add_scaled(x, 0, strip, c);
        return;
    }
    let s = strip.len();
    let mut u = [0u8; Profile::MAX_STRIP];
    u[..s].copy_from_slice(strip);
    strips::add_multiple(x, 0, &mut u[..s], c);
}

// d times a strip. Strips on the diagonal of coupling come with 1, which needs no product.
pub fn put_multiple(out: &mut [u8], strip: &[u8], d: u8)
    requires { length out.old ≡ length strip.now }
    ensures { out.new ≡ multiple_of d strip.now }
{
    if d == 1 {
        lists::put_bytes(out, 0, strip);
        return;
    }
    for (b, x) in strip.iter().enumerate() {
        out[b] = gf256::mul(d, *x);
    }
}

// A base strip from the two stored strips of its pair: the sum of its own and the partner's times f, divided by the
// determinant of the pair. d is the determinant's inverse.
pub fn uncouple(out: &mut [u8], own: &[u8], partner: &[u8], f: u8, d: u8)
    requires { (length out.old ≤ max_strip) × (length own.now ≡ length out.old)
        × (length partner.now ≡ length out.old) }
    ensures { out.new ≡ uncoupled_strip f d own.now partner.now }
{
    let s = out.len();
    let mut sum = [0u8; Profile::MAX_STRIP];
    sum[..s].copy_from_slice(own);
    add_times(&mut sum[..s], partner, f);
    put_multiple(out, &sum[..s], d);
}
