// Numbers in bytes, and what a field of a tag, a length and content opens with.
#![tactic(auto)]

ghost use Rattle.std.specs.Prelude.{◌≡◌, ◌+◌, ◌≤◌, length};
ghost use Rattle.lists.specs.Put.{slice, same, Wrote};
ghost use Rattle.fields.specs.Fields.{two_bytes, four_bytes, opening, opening_length};

// How many bytes a field's tag and length take.
pub const OPENING: usize = 3;

// The number in two bytes, high byte first; above 65535, its lowest sixteen bits count.
#[tactic(auto, unfolding(crate::specs::Fields::two_bytes))]
pub fn two_bytes(v: usize) -> [u8; 2]
    ensures { result ≡ two_bytes v }
{
    ((v & 0xffff) as u16).to_be_bytes()
}

// The number in four bytes, high byte first.
#[tactic(auto, unfolding(crate::specs::Fields::four_bytes))]
pub fn four_bytes(v: u32) -> [u8; 4]
    ensures { result ≡ four_bytes v }
{
    v.to_be_bytes()
}

// What a field with this tag and this length opens with.
#[tactic(auto, unfolding(crate::specs::Fields::opening, crate::specs::Fields::two_bytes))]
fn opening(tag: u8, len: usize) -> [u8; OPENING]
    ensures { result ≡ opening tag len }
{
    let [high, low] = two_bytes(len);
    [tag, high, low]
}

// Writes the tag and the length that a field opens with, and returns the position after them.
pub fn put_opening(out: &mut [u8], at: usize, tag: u8, len: usize) -> usize
    requires { at + opening_length ≤ length out.old }
    ensures { Wrote out.old at (opening tag len) result out.new }
{
    lists::put_bytes(out, at, &opening(tag, len))
}

// Whether the field that starts at `at` opens with this tag and this length.
pub fn opens(b: &[u8], at: usize, tag: u8, len: usize) -> bool
    requires { at + opening_length ≤ length b.now }
    ensures { result ≡ same (slice b.now at opening_length) (opening tag len) }
{
    lists::same_at(b, at, &opening(tag, len))
}
