// The download bundle: the message with the lost node and the recording in field 02, and the planned places. Written
// from a stored array, and compared by a reader with what is wanted.
#![tactic(auto)]

ghost use Rattle.std.specs.Prelude.{◌≡◌, ◌*◌, ◌<◌, length, Ok, Err};
ghost use Rattle.lists.specs.Put.{Wrote};
ghost use Rattle.document.specs.Refusals.{tried};
ghost use Rattle.document.specs.Accepted;
ghost use Rattle.document.specs.Plan.{price_of};
ghost use Rattle.document.specs.Message.{message_length};
ghost use Rattle.document.specs.Bundle.{lost_content, lost_content_length, bundle_length, bundle_of, write_with, write_of};
ghost use Rattle.document.specs.Bundle.{bundle_tests};
ghost use Rattle.document.specs.Rebuild.{first_strip};

use document::{Node, Numbers, Profile, Recording, Refusal};
use fields::OPENING;
use message::Message;
use plan::MAX_PLACES;

// How many bytes the content of field 02 takes.
const LOST: usize = 1 + Recording::BYTES;

// The length of the longest bundle.
pub const LONGEST: usize = OPENING
    + profile_field::MAX_CONTENT
    + (OPENING + LOST)
    + MAX_PLACES * (OPENING + message::PLACED + Profile::MAX_STRIP);

// The length of a bundle: the same for every lost node.
#[tactic(auto, unfolding(document::specs::Message::strip_field_start))]
fn bundle_length(p: Profile) -> usize
    ensures { result ≡ message_length p lost_content_length (price_of p.n p.k p.a) }
{
    message::strip_field(p, LOST, plan::price(p))
}

// Where the first strip starts: the same for all profiles of the edition.
pub fn first_strip(edition: u8) -> usize
    ensures { (p : Accepted.Profile) → p.edition ≡ edition → result ≡ first_strip p }
{
    message::first_strip(edition, LOST)
}

// The content of field 02: the lost node and the recording.
#[tactic(auto, unfolding(document::specs::Bundle::lost_content))]
fn lost_content(f: Node, r: Recording) -> [u8; LOST]
    requires { f.0 < 256 }
    ensures { result ≡ lost_content f r }
{
    let mut content = [f.0 as u8; LOST];
    content[1..].copy_from_slice(&r.bytes());
    content
}

// Writes the whole bundle.
#[tactic(auto, using(crate::proofs::Planned::bytes_bound, crate::proofs::Planned::taken))]
fn put_bundle(out: &mut [u8], p: Profile, f: Node, r: Recording, array: &[u8]) -> usize
    requires node { f.0 < p.n }
    requires array { length array.now ≡ p.n * p.a * p.s }
    requires room { length out.old ≡ bundle_length p f }
    ensures { Wrote out.old 0 (bundle_of p f r array.now) result out.new }
{
    let content = lost_content(f, r);
    let mut places = [0u8; 2 * MAX_PLACES];
    let end = plan::put_plan(&mut places, p, f);
    let message = Message {
        profile: p,
        content: &content,
        recording: r,
        places: &places[..end],
    };
    message.put(out, array)
}

// Writes a bundle with an accepted profile.
fn write_with(
    p: Profile,
    f: Node,
    r: Recording,
    array: &[u8],
    bundle: &mut [u8],
) -> Result<usize, Refusal>
    ensures { (result, bundle.new) ≡ write_with p f r array.now bundle.old }
{
    if f.0 >= p.n {
        return Err(Refusal::OutOfRange);
    }
    if array.len() != p.n * p.a * p.s {
        return Err(Refusal::BufferLength);
    }
    let length = bundle_length(p);
    if bundle.len() != length {
        return Err(Refusal::BufferLength);
    }
    put_bundle(bundle, p, f, r, array);
    Ok(length)
}

// Cuts the bundle for a lost node from a stored array. After a refusal all bytes are what they were.
pub fn write_bundle(
    p: Numbers,
    lost: usize,
    r: Recording,
    array: &[u8],
    bundle: &mut [u8],
) -> Result<usize, Refusal>
    ensures { (result, bundle.new) ≡ write_of p lost r array.now bundle.old }
{
    let profile = Profile::new(p)?;
    write_with(profile, Node(lost), r, array, bundle)
}

// What refuses a bundle that is read: the refusals 6 to 9.
#[tactic(auto, using(crate::proofs::Planned::bytes_bound, crate::proofs::Planned::taken))]
pub fn check(p: Profile, f: Node, r: Recording, bundle: &[u8]) -> Result<(), Refusal>
    requires { f.0 < p.n }
    ensures { result ≡ tried (bundle_tests p f r bundle.now) Err (Ok tt) }
{
    let content = lost_content(f, r);
    let mut places = [0u8; 2 * MAX_PLACES];
    let end = plan::put_plan(&mut places, p, f);
    let message = Message {
        profile: p,
        content: &content,
        recording: r,
        places: &places[..end],
    };
    message.check(bundle)
}
