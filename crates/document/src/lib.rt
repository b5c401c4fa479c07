// The types that the crates built on this one share, in the documents' words, and the profile's constructor that
// refuses.
#![tactic(auto)]

ghost use Rattle.std.specs.Prelude.{◌≡◌, ◌/◌, ◌%◌, ◌<◌};
ghost use Rattle.document.specs.Refusals.{number_of, index_of};
ghost use Rattle.document.specs.ByteField.{number};
ghost use Rattle.document.specs.Profile.{shape_accepted, edition_accepted, checked_of};
ghost use Rattle.document.specs.Places.{place, partner_of, Within};
ghost use Rattle.document.specs.Message.{recording_bytes};
ghost use Rattle.document.specs.Encoding;
ghost use Rattle.document.specs.Encoding.{constant_of, factor_at};

use std::marker::Model;

// The numbers of a profile as they are handed in: any numbers whatever.
#[derive(Clone, Copy, PartialEq, Eq)]
pub struct Numbers {
    pub n: usize,
    pub k: usize,
    pub a: usize,
    pub t: usize,
    pub s: usize,
    pub edition: usize,
}

// The same as a profile: nodes, data nodes, rows, coupling constant, strip length in bytes, and the edition, which says
// how a plan walks and how field 01 is written; it stays a number, which definitions compare and field 01 holds. There
// are accepted ones only: who writes one down must prove it.
#[derive(Clone, Copy, PartialEq, Eq)]
pub struct Profile {
    pub n: usize,
    pub k: usize,
    pub a: usize,
    pub t: u8,
    pub s: usize,
    pub edition: u8,
}

// Clauses see a profile as its numbers, and every profile is accepted.
impl Model for Profile {
    ghost use Rattle.document.specs.Accepted as spec;

    ghost Value = { spec.Profile };

    ghost use Rattle.document.specs.Fields.{numbers_in, fields_of};

    ghost view = { numbers_in };

    ghost invariant = { λ p. spec.Accepted (numbers_in p) };

    ghost inverse = { fields_of };
}

// A node's number. A row's number is another type: staff read the two off different labels.
#[derive(Clone, Copy, PartialEq, Eq)]
pub struct Node(pub usize);

#[derive(Clone, Copy, PartialEq, Eq)]
pub struct Row(pub usize);

// A place is written node first, then row.
#[derive(Clone, Copy, PartialEq, Eq)]
pub struct Place {
    pub node: Node,
    pub row: Row,
}

// A recording is a scenario and a run of it.
#[derive(Clone, Copy, PartialEq, Eq)]
pub struct Recording {
    pub scenario: u32,
    pub run: u16,
}

impl Recording {
    // How many bytes it takes in a field.
    pub const BYTES: usize = 6;

    // These bytes, as fields 02 and 03 have them: the scenario, then the run, high byte first.
    pub fn bytes(self) -> [u8; Recording::BYTES]
        ensures { result ≡ recording_bytes self }
    {
        let [a, b, c, d] = self.scenario.to_be_bytes();
        let [e, f] = self.run.to_be_bytes();
        [a, b, c, d, e, f]
    }
}

// Why a call is refused, in the order in which it is tried; `number_of` in specs/ gives the number. What a call answers
// is a `Result`: the value that the documents give it on success, or the refusal.
#[derive(Clone, Copy, PartialEq, Eq)]
pub enum Refusal {
    // 1: n, k or A not accepted
    Shape,
    // 2: t not in 2..255
    Constant,
    // 3: S is 0 or above 512
    StripLength,
    // 13: an edition other than 1 or 2
    Edition,
    // 4: lost node, node list or survey start
    OutOfRange,
    // 5: a lent buffer other than the bundle to read has the wrong length
    BufferLength,
    // 6: a bundle's total length, tags or field lengths
    Form,
    // 7: the content of its field 01 or 02
    Head,
    // 8: a strip's place, with the strip's index
    Misplaced(usize),
    // 9: a strip's scenario or run, with the strip's index
    Stale(usize),
    // 10: two different data give equal columns
    Ambiguous,
}

impl Refusal {
    // The documents' number.
    pub fn number(self) -> u8
        ensures { result ≡ number_of self }
    {
        match self {
            Refusal::Shape => 1,
            Refusal::Constant => 2,
            Refusal::StripLength => 3,
            Refusal::Edition => 13,
            Refusal::OutOfRange => 4,
            Refusal::BufferLength => 5,
            Refusal::Form => 6,
            Refusal::Head => 7,
            Refusal::Misplaced(_) => 8,
            Refusal::Stale(_) => 9,
            Refusal::Ambiguous => 10,
        }
    }

    // The index that comes with it: the strip's for 8 and 9, 0 for the others.
    pub fn index(self) -> usize
        ensures { result ≡ index_of self }
    {
        match self {
            Refusal::Misplaced(i) => i,
            Refusal::Stale(i) => i,
            _ => 0,
        }
    }
}

// What a survey that is not refused finds, with the number of sets looked at.
#[derive(Clone, Copy, PartialEq, Eq)]
pub enum Surveyed {
    // The first failing set: its position, counted from the first set of all, and the number.
    Failing(usize, usize),
    // None of the sets looked at fails, and none is left.
    Done(usize),
    // None of them fails, and some are left.
    Open(usize),
}

// Whether n, k and A are accepted together.
fn accepts_shape(n: usize, k: usize, a: usize) -> bool
    ensures { result ≡ shape_accepted n k a }
{
    if k < 1 {
        return false;
    }
    if n <= k {
        return false;
    }
    if a < Profile::MIN_ROWS {
        return false;
    }
    if Profile::MAX_ROWS < a {
        return false;
    }
    if n - k < a {
        return false;
    }
    if n % a != 0 {
        return false;
    }
    n <= Profile::MAX_NODES
}

// Whether there is such an edition.
fn accepts_edition(edition: usize) -> bool
    ensures { result ≡ edition_accepted edition }
{
    if edition < Profile::FIRST_EDITION {
        return false;
    }
    edition <= Profile::LAST_EDITION
}

impl Profile {
    pub const MAX_NODES: usize = 24;

    pub const MIN_ROWS: usize = 2;

    pub const MAX_ROWS: usize = 4;

    pub const MIN_CONSTANT: usize = 2;

    pub const MAX_CONSTANT: usize = 255;

    pub const MAX_STRIP: usize = 512;

    pub const FIRST_EDITION: usize = 1;

    pub const LAST_EDITION: usize = 2;

    // The profile with these numbers, or the first refusal that applies.
    pub fn new(p: Numbers) -> Result<Profile, Refusal>
        ensures { result ≡ checked_of p }
    {
        let t = p.t;
        let s = p.s;
        if !accepts_shape(p.n, p.k, p.a) {
            return Err(Refusal::Shape);
        }
        if t < Profile::MIN_CONSTANT {
            return Err(Refusal::Constant);
        }
        if Profile::MAX_CONSTANT < t {
            return Err(Refusal::Constant);
        }
        if s < 1 {
            return Err(Refusal::StripLength);
        }
        if Profile::MAX_STRIP < s {
            return Err(Refusal::StripLength);
        }
        if !accepts_edition(p.edition) {
            return Err(Refusal::Edition);
        }
        Ok(Profile {
            n: p.n,
            k: p.k,
            a: p.a,
            t: t as u8,
            s: s,
            edition: p.edition as u8,
        })
    }

    // The place of strip z in memory's order.
    pub fn place(self, z: usize) -> Place
        ensures { result ≡ place (z / self.a) (z % self.a) }
    {
        Place {
            node: Node(z / self.a),
            row: Row(z % self.a),
        }
    }

    // The place coupled with q.
    pub fn partner(self, q: Place) -> Place
        requires { Within self q }
        ensures { result ≡ partner_of self.a q }
    {
        let j = q.node.0;
        let i = q.row.0;
        Place {
            node: Node(j / self.a * self.a + i),
            row: Row(j % self.a),
        }
    }

    // Where the strip of q starts in memory.
    pub fn start(self, q: Place) -> usize
        requires { Within self q }
        ensures { result ≡ Encoding.start self q }
    {
        (q.node.0 * self.a + q.row.0) * self.s
    }

    // The coupling constant of the lower strip at a row and a local column: the only function that computes with a
    // profile's t.
    pub fn constant(self, i: Row, l: usize) -> u8
        ensures { result ≡ number (constant_of self i.0 l) }
    {
        self.t
    }

    // By what the partner is multiplied in the strip at a row and a local column.
    pub fn factor(self, i: Row, l: usize) -> u8
        ensures { result ≡ number (factor_at self i.0 l) }
    {
        let row = i.0;
        if row == l {
            return 0;
        }
        if row < l {
            return 1;
        }
        self.constant(i, l)
    }
}
