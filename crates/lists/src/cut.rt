// A list cut into parts of one length, which are written one by one.
ghost use Rattle.std.specs.Prelude.{◌≡◌, List, ℕ, ◌*◌, length};
ghost use Rattle.lists.specs.Parts.{parts, TakesParts, LeavesParts};

// Calls `put` with each part of `size` bytes and its number, from the front on.
pub fn each_part<F: Fn(usize, &mut [u8])>(out: &mut [u8], size: usize, count: usize, put: F)
    requires whole { length out.old ≡ count * size }
    requires takes { TakesParts F.Fn put size count }
    ensures { (f : ℕ → List ℕ) → LeavesParts F.Fn put size count f → out.new ≡ parts size f count }
{
    for i in 0..count {
        let at = i * size;
        put(i, &mut out[at..at + size]);
    }
}
