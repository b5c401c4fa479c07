// A message compared with what is wanted: the refusals 6 to 9. The tests of one field 03 take the offset where it
// starts.
ghost use Rattle.std.specs.Prelude.{◌≡◌, ◌+◌, ◌/◌, ◌<◌, ◌≤◌, length, Ok, Err};
ghost use Rattle.lists.specs.Listed.{all};
ghost use Rattle.fields.specs.Fields.{opening_length};
ghost use Rattle.document.specs.Refusals.{tried};
ghost use Rattle.document.specs.Message.{opened, placed, fresh, strip_offset};
ghost use Rattle.document.specs.Message.{head_length, formed, headed, message_tests};
ghost use Rattle.message.specs.PlaceBytes.{places_from};
ghost use Rattle.message.specs.Reader.{count_of, field_start, opened_in, placed_in, fresh_in, FirstNot};

use crate::{Message, PLACED, place_in};
use document::{Place, Profile, Recording, Refusal};
use fields::OPENING;

// Whether the field 03 that starts at `at` has its tag and its length.
#[tactic(auto, unfolding(document::specs::Message::opened))]
fn opened(p: Profile, b: &[u8], at: usize) -> bool
    requires { at + opening_length ≤ length b.now }
    ensures { result ≡ opened p.s b.now at }
{
    fields::opens(b, at, 3, PLACED + p.s)
}

// Whether it has the place q.
#[tactic(auto, using(crate::proofs::Fit::placed_is))]
fn placed(q: Place, b: &[u8], at: usize) -> bool
    requires { at + opening_length + 2 ≤ length b.now }
    ensures { result ≡ placed q b.now at }
{
    place_in(b, at + OPENING) == q
}

// Whether it is of the wanted recording.
#[tactic(auto, using(crate::proofs::Fit::fresh_is))]
fn fresh(r: Recording, b: &[u8], at: usize) -> bool
    requires { at + strip_offset ≤ length b.now }
    ensures { result ≡ fresh r b.now at }
{
    lists::same_at(b, at + OPENING + 2, &r.bytes())
}

// Bytes as long as the wanted message.
#[derive(Clone, Copy)]
struct Received<'w, 'a, 'b> {
    wanted: &'w Message<'a>,
    b: &'b [u8],
    ghost room: { field_start wanted.now (count_of wanted.now) ≤ length b.now },
}

impl<'w, 'a, 'b> Received<'w, 'a, 'b> {
    // Whether the field 03 of strip i has its tag and its length.
    #[tactic(auto, using(crate::proofs::Fit::field_room))]
    fn opened(&self, i: usize) -> bool
        requires { i < count_of self.now.wanted.now }
        ensures { result ≡ opened_in self.now.wanted.now self.now.b.now i }
    {
        opened(self.wanted.profile, self.b, self.wanted.field(i))
    }

    // Whether it has its place.
    #[tactic(auto, using(crate::proofs::Fit::field_room))]
    fn placed(&self, i: usize) -> bool
        requires { i < count_of self.now.wanted.now }
        ensures { result ≡ placed_in self.now.wanted.now self.now.b.now i }
    {
        placed(self.wanted.place(i), self.b, self.wanted.field(i))
    }

    // Whether it is of the wanted recording.
    #[tactic(auto, using(crate::proofs::Fit::field_room))]
    fn fresh(&self, i: usize) -> bool
        requires { i < count_of self.now.wanted.now }
        ensures { result ≡ fresh_in self.now.wanted.now self.now.b.now i }
    {
        fresh(self.wanted.recording, self.b, self.wanted.field(i))
    }

    // Whether all fields 03 have their tag and length.
    fn all_opened(&self) -> bool
        ensures { result ≡ all (count_of self.now.wanted.now) (opened_in self.now.wanted.now self.now.b.now) }
    {
        (0..self.wanted.count()).all(|i| self.opened(i))
    }

    // The first strip that has another place than the list.
    fn first_misplaced(&self) -> Option<usize>
        ensures { FirstNot (placed_in self.now.wanted.now self.now.b.now) (count_of self.now.wanted.now) result }
    {
        (0..self.wanted.count()).find(|&i| !self.placed(i))
    }

    // The first strip of another recording.
    fn first_stale(&self) -> Option<usize>
        ensures { FirstNot (fresh_in self.now.wanted.now self.now.b.now) (count_of self.now.wanted.now) result }
    {
        (0..self.wanted.count()).find(|&i| !self.fresh(i))
    }
}

impl<'a> Message<'a> {
    // Whether the total length, the tags and the field lengths are the wanted ones.
    #[tactic(auto, unfolding(document::specs::Message::formed, document::specs::Message::strip_field_start))]
    fn formed(&self, b: &[u8]) -> bool
        ensures { result
            ≡ formed self.now.profile (length self.now.content.now) (length self.now.places.now / 2) b.now }
    {
        b.len() == self.field(self.count())
            && profile_field::opened(self.profile.edition, b, 0)
            && fields::opens(
                b,
                profile_field::field_length(self.profile.edition),
                2,
                self.content.len(),
            )
            && Received { wanted: self, b }.all_opened()
    }

    // Whether the contents of fields 01 and 02 are the wanted ones.
    #[tactic(auto, unfolding(document::specs::Message::headed))]
    fn headed(&self, b: &[u8]) -> bool
        requires { head_length self.now.profile (length self.now.content.now) ≤ length b.now }
        ensures { result ≡ headed self.now.profile self.now.content.now b.now }
    {
        profile_field::same_content(self.profile, b, 0)
            && lists::same_at(
                b,
                profile_field::field_length(self.profile.edition) + OPENING,
                self.content,
            )
    }

    // What refuses a message that is read: 6, 7, then 8 over all strips, then 9 over all strips.
    pub fn check(&self, b: &[u8]) -> Result<(), Refusal>
        ensures { result
            ≡ tried
            (message_tests self.now.profile self.now.content.now self.now.recording (places_from self.now.places.now)
            b.now) Err (Ok tt) }
    {
        if !self.formed(b) {
            return Err(Refusal::Form);
        }
        if !self.headed(b) {
            return Err(Refusal::Head);
        }
        let received = Received { wanted: self, b };
        if let Some(i) = received.first_misplaced() {
            return Err(Refusal::Misplaced(i));
        }
        if let Some(i) = received.first_stale() {
            return Err(Refusal::Stale(i));
        }
        Ok(())
    }
}
