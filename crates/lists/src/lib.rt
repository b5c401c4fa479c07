// Lists of bytes: written into a buffer, compared and searched. All else here is about lists alone: definitions in
// specs/, their laws in proofs/.
#![tactic(auto)]

ghost use Rattle.std.specs.Prelude.{◌≡◌, cond, [], ◌∷◌, ◌+◌, ◌≤◌, ◌<◌, length};
ghost use Rattle.lists.specs.Put.{slice, same, Wrote};
ghost use Rattle.lists.specs.Positions.{position_in};

mod cut;

pub use cut::each_part;

// Writes the bytes of src, and returns the position after them.
// Buffer and position are no struct of their own: the public contracts by `Wrote` name both, and may not change.
pub fn put_bytes(out: &mut [u8], at: usize, src: &[u8]) -> usize
    requires { at + length src.now ≤ length out.old }
    ensures { Wrote out.old at src.now result out.new }
{
    // A loop: where the compiler does not know that two slices are apart, it makes `copy_from_slice` the C library's
    // memmove, which a C host need not have.
    for (i, x) in src.iter().enumerate() {
        out[at + i] = *x;
    }
    at + src.len()
}

// Writes a number as one byte if it is wanted, and returns the position after what was written.
// The number and the flag are no Option: the public contract names both, and may not change.
#[tactic(auto, using(crate::proofs::Put::wrote_one, crate::proofs::Put::wrote_none))]
pub fn put_if(out: &mut [u8], at: usize, v: usize, wanted: bool) -> usize
    requires { (at < length out.old) × (v < 256) }
    ensures { Wrote out.old at (cond wanted (v ∷ []) []) result out.new }
{
    if wanted {
        out[at] = v as u8;
        at + 1
    } else {
        at
    }
}

// Whether the bytes of b from `at` on are those of want.
#[tactic(auto, unfolding(crate::specs::Put::slice, crate::specs::Put::same))]
pub fn same_at(b: &[u8], at: usize, want: &[u8]) -> bool
    requires { at + length want.now ≤ length b.now }
    ensures { result ≡ same (slice b.now at (length want.now)) want.now }
{
    &b[at..at + want.len()] == want
}

// Where v stands in the list; its length if it does not. No Option: the definition counts so too.
pub fn position_of(list: &[u8], v: usize) -> usize
    ensures { result ≡ position_in list.now v }
{
    let found = list.iter().position(|x| usize::from(*x) == v);
    found.unwrap_or(list.len())
}
