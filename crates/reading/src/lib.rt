// Reading back by pairs. Where both strips of a pair are read they give both base strips; the partners of the half
// pairs solve a small system. From the base strips of the named nodes follow those of the data nodes, which are the
// data.
#![tactic(auto)]

ghost use Rattle.std.specs.Prelude.{◌≡◌, ◌*◌, ◌<◌, length};
ghost use Rattle.ksets.specs.Sets.{Rising};
ghost use Rattle.document.specs.Reading.{list_accepted, read_with, read_of};
ghost use Rattle.half_pairs.specs.HalfPairs.{HalfPairsOf};
ghost use Rattle.reading.specs.Steps.{known_strip, known_strips};
ghost use Rattle.reading.specs.Steps.{known_partner_strip, known_partner_strips};
ghost use Rattle.reading.specs.Steps.{completed_strip, completed, base_column, base_columns, data_by, reading_answer};

use document::{Numbers, Profile, Refusal};
use half_pairs::HalfPairs;
use square::{Line, SIDE};

// Whether the list is k strictly rising numbers below n.
fn accepts_list(nodes: &[u8], n: usize, k: usize) -> bool
    ensures { result ≡ list_accepted n 0 k nodes.now }
{
    if nodes.len() != k {
        return false;
    }
    let mut lowest: usize = 0;
    for node in nodes {
        let x = *node as usize;
        if x < lowest || n <= x {
            return false;
        }
        lowest = x + 1;
    }
    true
}

// What the columns give of the base strip z: all of it where its partner is named, otherwise the stored strip.
fn known_strip(out: &mut [u8], p: Profile, nodes: &[u8], h: &HalfPairs, columns: &[u8], z: usize)
    requires nodes_rising { Rising p.n p.k nodes.now × HalfPairsOf p nodes.now h.now × (z < p.k * p.a) }
    requires out_len { (length out.old ≡ p.s) × (length columns.now ≡ p.k * p.a * p.s) }
    ensures { out.new ≡ known_strip p nodes.now columns.now z }
{
    let s = p.s;
    let q = half_pairs::joined_place(p, nodes, z);
    let r = p.partner(q);
    let j = r.node.0;
    let at = h.positions[j] as usize;
    let from = z * s;
    let own = &columns[from..from + s];
    if at >= p.k {
        out.copy_from_slice(own);
        return;
    }
    let row = q.row;
    let f = p.factor(row, r.row.0);
    let d = gf256::inverse_of(coupling::determinant(p, row, r.row.0));
    let other = (at * p.a + r.row.0) * s;
    coupling::uncouple(out, own, &columns[other..other + s], f, d);
}

// The same of all strips.
fn known_strips(out: &mut [u8], p: Profile, nodes: &[u8], h: &HalfPairs, columns: &[u8])
    requires nodes_rising { Rising p.n p.k nodes.now × HalfPairsOf p nodes.now h.now }
    requires out_len { (length out.old ≡ p.k * p.a * p.s) × (length columns.now ≡ p.k * p.a * p.s) }
    ensures { out.new ≡ known_strips p nodes.now columns.now }
{
    lists::each_part(out, p.s, p.k * p.a, |z, strip| {
        known_strip(strip, p, nodes, h, columns, z)
    });
}

// What the known strips y give of the base strip at the partner of the half pair z: the sum of the strips of its row,
// with the weights at its node.
fn known_partner(out: &mut [u8], p: Profile, nodes: &[u8], h: &HalfPairs, y: &[u8], z: usize)
    requires nodes_rising { Rising p.n p.k nodes.now × HalfPairsOf p nodes.now h.now × (z < p.k * p.a) }
    requires out_len { (length out.old ≡ p.s) × (length y.now ≡ p.k * p.a * p.s) }
    ensures { out.new ≡ known_partner_strip p nodes.now y.now z }
{
    let k = p.k;
    let s = p.s;
    let r = half_pairs::joined_partner(p, nodes, z);
    let from = r.node.0 * k;
    strips::combine(out, y, r.row.0 * s, p.a * s, &h.table[from..from + k]);
}

// The same for each half pair: the right-hand sides of their system.
fn known_partners(out: &mut [u8], p: Profile, nodes: &[u8], h: &HalfPairs, y: &[u8])
    requires nodes_rising { Rising p.n p.k nodes.now × HalfPairsOf p nodes.now h.now }
    requires out_len { (length out.old ≡ h.now.count * p.s) × (length y.now ≡ p.k * p.a * p.s) }
    ensures { out.new ≡ known_partner_strips p nodes.now y.now }
{
    lists::each_part(out, p.s, h.count, |e, strip| {
        known_partner(strip, p, nodes, h, y, h.halves[e] as usize)
    });
}

// Completes the e-th half pair: its partner is the sum of the right-hand sides r with line e of the inverse, and is
// added times its factor.
fn complete_strip(
    y: &mut [u8],
    p: Profile,
    nodes: &[u8],
    h: &HalfPairs,
    r: &[u8],
    line: Line,
    e: usize,
)
    requires nodes_rising { Rising p.n p.k nodes.now × HalfPairsOf p nodes.now h.now × (e < h.now.count) }
    requires y_len { (length y.old ≡ p.k * p.a * p.s) × (length r.now ≡ h.now.count * p.s) }
    ensures { y.new
        ≡ completed_strip p nodes.now line.c r.now e y.old }
{
    let s = p.s;
    let z = h.halves[e] as usize;
    let q = half_pairs::joined_place(p, nodes, z);
    let row = q.row;
    let f = p.factor(row, q.node.0 % p.a);
    let c = line.c;
    let mut u = [0u8; Profile::MAX_STRIP];
    strips::combine(&mut u[..s], r, 0, s, &c[..h.count]);
    strips::add_multiple(y, z * s, &mut u[..s], f);
}

// Completes all of them.
fn complete(y: &mut [u8], p: Profile, nodes: &[u8], h: &HalfPairs, r: &[u8], lines: [Line; SIDE])
    requires nodes_rising { Rising p.n p.k nodes.now × HalfPairsOf p nodes.now h.now }
    requires y_len { (length y.old ≡ p.k * p.a * p.s) × (length r.now ≡ h.now.count * p.s) }
    ensures { y.new
        ≡ completed p nodes.now lines r.now h.now.count y.old }
{
    for e in 0..h.count {
        complete_strip(y, p, nodes, h, r, lines[e], e);
    }
}

// The base strips of node j from those of the named nodes, y: its own where it is one of them, otherwise their sum with
// the weights at it. Every row has the same weights, so a whole column is one strip to the row code.
fn put_column(out: &mut [u8], p: Profile, nodes: &[u8], h: &HalfPairs, y: &[u8], j: usize)
    requires nodes_rising { Rising p.n p.k nodes.now × HalfPairsOf p nodes.now h.now × (j < p.n) }
    requires out_len { (length out.old ≡ p.a * p.s) × (length y.now ≡ p.k * p.a * p.s) }
    ensures { out.new ≡ base_column p nodes.now y.now j }
{
    let k = p.k;
    let width = p.a * p.s;
    let at = h.positions[j] as usize;
    if at < k {
        let from = at * width;
        out.copy_from_slice(&y[from..from + width]);
        return;
    }
    let from = j * k;
    strips::combine(out, y, 0, width, &h.table[from..from + k]);
}

// The base strips of the data nodes.
fn put_columns(out: &mut [u8], p: Profile, nodes: &[u8], h: &HalfPairs, y: &[u8])
    requires nodes_rising { Rising p.n p.k nodes.now × HalfPairsOf p nodes.now h.now }
    requires out_len { (length out.old ≡ p.k * p.a * p.s) × (length y.now ≡ p.k * p.a * p.s) }
    ensures { out.new ≡ base_columns p nodes.now y.now }
{
    lists::each_part(out, p.a * p.s, p.k, |j, column| {
        put_column(column, p, nodes, h, y, j)
    });
}

// The data, by the lines of the inverse of the system. The strips of the named nodes stand in y; the right-hand sides
// stand in the output until the data are written over them.
#[tactic(auto, using(crate::proofs::Partners::halves_room))]
fn put_data_in(
    out: &mut [u8],
    y: &mut [u8],
    p: Profile,
    nodes: &[u8],
    h: &HalfPairs,
    columns: &[u8],
    lines: [Line; SIDE],
)
    requires nodes_rising { Rising p.n p.k nodes.now × HalfPairsOf p nodes.now h.now }
    requires columns_len { (length columns.now ≡ p.k * p.a * p.s) × (length out.old ≡ p.k * p.a * p.s)
        × (length y.old ≡ p.k * p.a * p.s) }
    ensures { out.new ≡ data_by p nodes.now lines columns.now }
{
    let partners = h.count * p.s;
    known_strips(y, p, nodes, h, columns);
    known_partners(&mut out[..partners], p, nodes, h, y);
    complete(y, p, nodes, h, &out[..partners], lines);
    put_columns(out, p, nodes, h, y);
}

// The same, with room for the strips of the named nodes. Not inlined: the room is not there while the system is solved.
#[inline(never)]
fn put_data(
    out: &mut [u8],
    p: Profile,
    nodes: &[u8],
    h: &HalfPairs,
    columns: &[u8],
    lines: [Line; SIDE],
)
    requires nodes_rising { Rising p.n p.k nodes.now × HalfPairsOf p nodes.now h.now }
    requires columns_len { (length columns.now ≡ p.k * p.a * p.s) × (length out.old ≡ p.k * p.a * p.s) }
    ensures { out.new ≡ data_by p nodes.now lines columns.now }
{
    let size = out.len();
    let mut y = [0u8; SIDE * Profile::MAX_STRIP];
    put_data_in(out, &mut y[..size], p, nodes, h, columns, lines);
}

// Reads back from nodes and columns in due form. Whether it is refused is known before a byte is written.
fn read_from(p: Profile, nodes: &[u8], columns: &[u8], output: &mut [u8]) -> Result<usize, Refusal>
    requires nodes_rising { Rising p.n p.k nodes.now }
    requires columns_len { (length columns.now ≡ p.k * p.a * p.s) × (length output.old ≡ p.k * p.a * p.s) }
    ensures { (result, output.new)
        ≡ reading_answer p nodes.now columns.now output.old }
{
    let h = half_pairs::of_nodes(p, nodes);
    let s = half_pairs::small_system(p, nodes, &h);
    let count = h.count;
    let Ok(lines) = square::invert(s, count, count) else {
        return Err(Refusal::Ambiguous);
    };
    put_data(output, p, nodes, &h, columns, lines);
    Ok(0)
}

// Reads back with an accepted profile.
fn read_with(p: Profile, nodes: &[u8], columns: &[u8], output: &mut [u8]) -> Result<usize, Refusal>
    ensures { (result, output.new)
        ≡ read_with p nodes.now columns.now output.old }
{
    if !accepts_list(nodes, p.n, p.k) {
        return Err(Refusal::OutOfRange);
    }
    let size = p.k * p.a * p.s;
    if columns.len() != size {
        return Err(Refusal::BufferLength);
    }
    if output.len() != size {
        return Err(Refusal::BufferLength);
    }
    read_from(p, nodes, columns, output)
}

// Reads the data back from the columns of the named nodes, joined in list order. After a refusal the output is what it
// was.
pub fn read_back(
    p: Numbers,
    nodes: &[u8],
    columns: &[u8],
    output: &mut [u8],
) -> Result<usize, Refusal>
    ensures { (result, output.new)
        ≡ read_of p nodes.now columns.now output.old }
{
    let profile = Profile::new(p)?;
    read_with(profile, nodes, columns, output)
}
