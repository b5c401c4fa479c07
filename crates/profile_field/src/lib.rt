// Field 01 of a message: the profile with its edition. Written, and compared with a wanted one.
#![tactic(auto)]

ghost use Rattle.std.specs.Prelude.{◌≡◌, ◌+◌, ◌≤◌, length, take};
ghost use Rattle.lists.specs.Put.{slice, same, Wrote};
ghost use Rattle.fields.specs.Fields.{opening, opening_length, field_of};
ghost use Rattle.document.specs.Accepted;
ghost use Rattle.document.specs.Message.{profile_content, profile_content_length, max_profile_content};
ghost use Rattle.document.specs.Message.{profile_field_length};

use document::Profile;
use fields::OPENING;

// How many bytes the longest content takes.
pub const MAX_CONTENT: usize = 7;

// How long the content is: six bytes in edition 1, and one more, the edition, in edition 2. Said, as below, of all
// profiles of that edition, accepted or not.
#[tactic(auto, using(document::proofs::Message::profile_length))]
fn content_length(edition: u8) -> usize
    ensures length { (p : Accepted.Profile) → p.edition ≡ edition → result ≡ profile_content_length p }
    ensures short { result ≤ max_profile_content }
{
    match edition {
        1 => 6,
        _ => MAX_CONTENT,
    }
}

// What the field opens with, its tag and its length: 'the three bytes 01 00 06', in edition 2 01 00 07. Document 01 asks
// for fixed byte strings here.
#[tactic(auto, using(document::proofs::Message::profile_length), unfolding(fields::specs::Fields::opening, fields::specs::Fields::two_bytes))]
fn opening_bytes(edition: u8) -> [u8; OPENING]
    ensures { (p : Accepted.Profile) → p.edition ≡ edition → result ≡ opening 1 (profile_content_length p) }
{
    match edition {
        1 => *b"\x01\x00\x06",
        _ => *b"\x01\x00\x07",
    }
}

// The content: as many of these bytes as it is long. There is no heap: the caller cuts them.
fn content_bytes(p: Profile) -> [u8; MAX_CONTENT]
    ensures { take (profile_content_length p) result ≡ profile_content p }
{
    let [high, low] = fields::two_bytes(p.s);
    [p.n as u8, p.k as u8, p.a as u8, p.t, high, low, p.edition]
}

// The length of the field, tag and length counted in: that of every profile of the edition.
pub fn field_length(edition: u8) -> usize
    ensures length { (p : Accepted.Profile) → p.edition ≡ edition → result ≡ profile_field_length p }
    ensures short { result ≤ opening_length + max_profile_content }
{
    OPENING + content_length(edition)
}

// Writes the field, and returns the position after it.
pub fn put(out: &mut [u8], at: usize, p: Profile) -> usize
    requires { at + profile_field_length p ≤ length out.old }
    ensures { Wrote out.old at (field_of 1 (profile_content p)) result out.new }
{
    let content = content_bytes(p);
    let after_opening = lists::put_bytes(out, at, &opening_bytes(p.edition));
    lists::put_bytes(out, after_opening, &content[..content_length(p.edition)])
}

// Whether the field that starts at `at` has the tag and the length that those of profiles of the edition have.
pub fn opened(edition: u8, b: &[u8], at: usize) -> bool
    requires { at + opening_length ≤ length b.now }
    ensures { (p : Accepted.Profile) → p.edition ≡ edition
        → result ≡ same (slice b.now at opening_length) (opening 1 (profile_content_length p)) }
{
    lists::same_at(b, at, &opening_bytes(edition))
}

// Whether its content is that of this profile.
pub fn same_content(p: Profile, b: &[u8], at: usize) -> bool
    requires { at + profile_field_length p ≤ length b.now }
    ensures { result
        ≡ same (slice b.now (at + opening_length) (profile_content_length p)) (profile_content p) }
{
    let content = content_bytes(p);
    lists::same_at(b, at + OPENING, &content[..content_length(p.edition)])
}
