// The field of 256 elements. A product is worked out by the bits of one factor, with shifts and exclusive ors, and no
// table is read for it; the compiler can turn a loop of such products into vectors. The tables of the powers of 2 and of
// their logarithms serve the inverse alone.
#![tactic(auto)]

ghost use Rattle.std.specs.Prelude.{◌≡◌, ◌<◌, ◌≤◌, length};
ghost use Rattle.gf256.specs.Field;
ghost use Rattle.gf256.specs.Field.{◌⊗◌, double, power, table_of, inverted_of};
ghost use Rattle.gf256.specs.Field.{total_of, product_of, products_of, inverses_of, quotients_of, NoZero, max_divisors};

mod table;

// The most divisors that `divide_all` takes.
const MAX_DIVISORS: usize = 64;

// The product with 2.
pub fn twice(a: u8) -> u8
    ensures { result ≡ double a }
{
    let r: u8 = if a >= 128 { 0x1D } else { 0 };
    (a << 1) ^ r
}

// The product, by the bits of b. For speed, a factor that stays the same in a loop comes first: its multiples are then
// worked out once.
pub fn mul(a: u8, b: u8) -> u8
    ensures { result ≡ a ⊗ b }
{
    let mut r: u8 = 0;
    let mut x = a;
    for i in 0..u8::BITS {
        if (b >> i) % 2 == 1 {
            r ^= x;
        }
        x = twice(x);
    }
    r
}

// The sum of a list, 0 for the empty one. A `for`, since `fold` is slower: 70 of 214443 instructions of `encode`
// at (24,20,4).
pub fn total_of(xs: &[u8]) -> u8
    ensures { result ≡ total_of xs.now }
{
    let mut total = 0;
    for x in xs {
        total ^= *x;
    }
    total
}

// The product of a list, 1 for the empty one.
pub fn product_of(xs: &[u8]) -> u8
    ensures { result ≡ product_of xs.now }
{
    xs.iter().fold(1, |product, x| mul(*x, product))
}

// Multiplies each entry of xs by the entry of ys at its place.
pub fn multiply_all(xs: &mut [u8], ys: &[u8])
    requires { length xs.old ≡ length ys.now }
    ensures { xs.new ≡ products_of xs.old ys.now }
{
    for (i, x) in xs.iter_mut().enumerate() {
        *x = mul(*x, ys[i]);
    }
}

// The logarithm; 0 for 0.
fn log_at(a: u8) -> usize
    ensures { (result ≡ Field.log a) × (result < 255) }
{
    usize::from(table::logs()[usize::from(a)])
}

// The inverse of a byte that is not 0, which the caller shows: the power at 255 less its logarithm.
pub fn inverse_of(a: u8) -> u8
    requires { 0 < a }
    ensures { result ≡ Field.inverse a }
{
    table::powers()[255 - log_at(a)]
}

// The inverse of any byte: none for 0.
pub fn inverse(a: u8) -> Option<u8>
    ensures { result ≡ inverted_of a }
{
    if a == 0 {
        return None;
    }
    Some(inverse_of(a))
}

// Puts the inverse in the place of each entry of a list, none of which is 0.
pub fn invert_all(xs: &mut [u8])
    requires { NoZero xs.old }
    ensures { xs.new ≡ inverses_of xs.old }
{
    for x in xs.iter_mut() {
        *x = inverse_of(*x);
    }
}

// Divides each entry of xs by the entry of ys at its place, which is not 0: multiplies it by the inverse.
pub fn divide_all(xs: &mut [u8], ys: &[u8])
    requires xs_len { (length xs.old ≡ length ys.now) × (length ys.now ≤ max_divisors) }
    requires no_zero { NoZero ys.now }
    ensures { xs.new ≡ quotients_of xs.old ys.now }
{
    let mut inverses = [0u8; MAX_DIVISORS];
    let inverses = &mut inverses[..ys.len()];
    inverses.copy_from_slice(ys);
    invert_all(inverses);
    multiply_all(xs, inverses);
}
