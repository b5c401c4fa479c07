// Messages: field 01 with the profile, a field 02 with some content, and a field 03 for each place of some list. The
// download bundle is one. Written, and compared by a reader with what is wanted (reader.rt). A list of places is two
// bytes a place, node first.
#![tactic(auto)]

ghost use Rattle.std.specs.Prelude.{◌≡◌, ◌++◌, ◌+◌, ◌*◌, ◌/◌, ◌<◌, ◌≤◌, length, get_or};
ghost use Rattle.lists.specs.Put.{Wrote};
ghost use Rattle.lists.specs.Each.{Each};
ghost use Rattle.fields.specs.Fields.{opening_length, field_of};
ghost use Rattle.document.specs.Accepted;
ghost use Rattle.document.specs.Profile.{max_strip};
ghost use Rattle.document.specs.Places.{place, Within, place_at};
ghost use Rattle.document.specs.Encoding.{strip_of};
ghost use Rattle.document.specs.Message.{profile_content, max_profile_content};
ghost use Rattle.document.specs.Message.{strip_content, strip_field_length, strip_offset};
ghost use Rattle.document.specs.Message.{head_length, message_length, strip_fields, message_of, strip_field_start};
ghost use Rattle.message.specs.PlaceBytes.{places_from, Bounded};

mod reader;

use document::{Node, Place, Profile, Recording, Row};
use fields::OPENING;

// How many bytes the content of a field 03 takes before its strip.
pub const PLACED: usize = 2 + Recording::BYTES;

// What a message has beside its strips: the profile, the content of field 02, the recording and the places.
#[derive(Clone, Copy)]
pub struct Message<'a> {
    pub profile: Profile,
    pub content: &'a [u8],
    pub recording: Recording,
    pub places: &'a [u8],
    ghost bounded: { Bounded (length content.now) (length places.now / 2) },
}

// The length of fields 01 and 02, where the content of field 02 has m bytes: the same for all profiles of the edition.
fn head_length(edition: u8, m: usize) -> usize
    requires { m < 65536 }
    ensures length { (p : Accepted.Profile) → p.edition ≡ edition → result ≡ head_length p m }
    ensures short { result ≤ opening_length + max_profile_content + (opening_length + m) }
{
    profile_field::field_length(edition) + (OPENING + m)
}

// How far one field 03 starts from the next, and one strip from the next.
pub fn strip_stride(p: Profile) -> usize
    ensures { result ≡ strip_field_length p.s }
{
    OPENING + (PLACED + p.s)
}

// Where the field 03 of strip i starts; with the number of strips for i, the length of the message.
#[tactic(auto, unfolding(document::specs::Message::strip_field_start))]
pub fn strip_field(p: Profile, m: usize, i: usize) -> usize
    requires { Bounded m i }
    ensures { result ≡ strip_field_start p m i }
{
    head_length(p.edition, m) + i * strip_stride(p)
}

// Where the first strip starts: the same for all profiles of the edition.
pub fn first_strip(edition: u8, m: usize) -> usize
    requires { m < 65536 }
    ensures { (p : Accepted.Profile) → p.edition ≡ edition → result ≡ head_length p m + strip_offset }
{
    head_length(edition, m) + OPENING + PLACED
}

// The place that two bytes name, node first.
fn place_in(b: &[u8], at: usize) -> Place
    requires { at + 2 ≤ length b.now }
    ensures { result ≡ place (get_or b.now at 0) (get_or b.now (at + 1) 0) }
{
    Place {
        node: Node(usize::from(b[at])),
        row: Row(usize::from(b[at + 1])),
    }
}

impl<'a> Message<'a> {
    // The number of places.
    fn count(&self) -> usize
        ensures { result ≡ length self.now.places.now / 2 }
    {
        self.places.len() / 2
    }

    // Place i.
    #[tactic(auto, using(crate::proofs::Places::places_at_lem))]
    fn place(&self, i: usize) -> Place
        requires { i < length self.now.places.now / 2 }
        ensures { result ≡ place_at (places_from self.now.places.now) i }
    {
        place_in(self.places, 2 * i)
    }

    // Where the field 03 of strip i starts; with the number of strips for i, the length of the message.
    fn field(&self, i: usize) -> usize
        requires { i ≤ length self.now.places.now / 2 }
        ensures { result ≡ strip_field_start self.now.profile (length self.now.content.now) i }
    {
        strip_field(self.profile, self.content.len(), i)
    }

    // Writes fields 01 and 02.
    #[tactic(auto, using(crate::proofs::Fit::opening_size, fields::proofs::Fields::field_length))]
    fn put_head(&self, out: &mut [u8]) -> usize
        requires { head_length self.now.profile (length self.now.content.now) ≤ length out.old }
        ensures { Wrote out.old 0
            (field_of 1 (profile_content self.now.profile) ++ field_of 2 self.now.content.now) result out.new }
    {
        let after_profile = profile_field::put(out, 0, self.profile);
        let after_opening = fields::put_opening(out, after_profile, 2, self.content.len());
        lists::put_bytes(out, after_opening, self.content)
    }

    // Writes a field 03: a place, the recording and a strip.
    #[tactic(auto, using(crate::proofs::Fit::opening_size, document::proofs::Message::recording_length_lem))]
    fn put_strip(&self, out: &mut [u8], at: usize, q: Place, strip: &[u8]) -> usize
        requires node { q.node.0 < 256 }
        requires row { q.row.0 < 256 }
        requires short { length strip.now ≤ max_strip }
        requires room { at + strip_field_length (length strip.now) ≤ length out.old }
        ensures { Wrote out.old at
            (field_of 3 (strip_content q self.now.recording strip.now)) result out.new }
    {
        let after_opening = fields::put_opening(out, at, 3, PLACED + strip.len());
        let after_place = lists::put_bytes(out, after_opening, &[q.node.0 as u8, q.row.0 as u8]);
        let after_recording = lists::put_bytes(out, after_place, &self.recording.bytes());
        lists::put_bytes(out, after_recording, strip)
    }

    // The same, with the strip that the array has at the place.
    #[tactic(auto, using(crate::proofs::Fit::strip_fits))]
    fn put_strip_of(&self, out: &mut [u8], at: usize, q: Place, array: &[u8]) -> usize
        requires within { Within self.now.profile q }
        requires array { length array.now ≡ self.now.profile.n * self.now.profile.a * self.now.profile.s }
        requires room { at + strip_field_length self.now.profile.s ≤ length out.old }
        ensures { Wrote out.old at
            (field_of 3 (strip_content q self.now.recording (strip_of self.now.profile array.now q))) result out.new }
    {
        let from = self.profile.start(q);
        let end = from + self.profile.s;
        self.put_strip(out, at, q, &array[from..end])
    }

    // Writes a field 03 for each of the places, with the strips that the array has there.
    fn put_strips(&self, out: &mut [u8], at: usize, array: &[u8]) -> usize
        requires within { Each (Within self.now.profile) (places_from self.now.places.now) }
        requires array { length array.now ≡ self.now.profile.n * self.now.profile.a * self.now.profile.s }
        requires room { at + length self.now.places.now / 2 * strip_field_length self.now.profile.s ≤ length out.old }
        ensures { Wrote out.old at
            (strip_fields self.now.recording (strip_of self.now.profile array.now) (places_from self.now.places.now))
            result out.new }
    {
        let mut next = at;
        // By the number of the place: pairs of bytes would be read as places again.
        for i in 0..self.count() {
            next = self.put_strip_of(out, next, self.place(i), array);
        }
        next
    }

    // Writes the whole message, with the strips that the array has at the places.
    pub fn put(&self, out: &mut [u8], array: &[u8]) -> usize
        requires within { Each (Within self.now.profile) (places_from self.now.places.now) }
        requires array { length array.now ≡ self.now.profile.n * self.now.profile.a * self.now.profile.s }
        requires room { length out.old
            ≡ message_length self.now.profile (length self.now.content.now) (length self.now.places.now / 2) }
        ensures { Wrote out.old 0
            (message_of self.now.profile self.now.content.now self.now.recording (strip_of self.now.profile array.now)
            (places_from self.now.places.now)) result out.new }
    {
        let after_head = self.put_head(out);
        self.put_strips(out, after_head, array)
    }
}
