// The half pairs of a reading, the strips of the named nodes' columns whose partner is not read, and the system whose
// unknowns are the base symbols of those partners. It has a line for each half pair, where document 01's coefficient
// square has one for each strip.
#![tactic(auto)]

ghost use Rattle.std.specs.Prelude.{◌≡◌, false, ◌*◌, ◌<◌, length};
ghost use Rattle.lists.specs.Put.{Wrote};
ghost use Rattle.ksets.specs.Sets.{Rising};
ghost use Rattle.square.specs.Steps.{side};
ghost use Rattle.document.specs.Places.{Within};
ghost use Rattle.document.specs.ByteField.{number};
ghost use Rattle.document.specs.Reading.{joined_place};
ghost use Rattle.coefficients.specs.Weights.{denominators_of};
ghost use Rattle.half_pairs.specs.HalfPairs.{position_table, is_named, is_half_pair, partner_at, half_pairs};
ghost use Rattle.half_pairs.specs.HalfPairs.{weight_row, node_weights, weight_table};
ghost use Rattle.half_pairs.specs.HalfPairs.{coefficient_in, system_line, system_square, HalfPairsOf};

use document::{Node, Place, Profile, Row};
use square::{Line, SIDE};

// A weight at each node of each named node.
const WEIGHTS: usize = Profile::MAX_NODES * Profile::MAX_NODES;

// What the system of a reading is made of: where each node stands in the list of the named nodes, the numbers of the
// half pairs and how many there are, and the weights at all nodes.
#[derive(Clone, Copy)]
pub struct HalfPairs {
    // k for a node that is not named: `position_table` of specs/ says so.
    pub positions: [u8; Profile::MAX_NODES],
    pub halves: [u8; SIDE],
    pub count: usize,
    pub table: [u8; WEIGHTS],
}

// Where each node that a profile can have stands in the list; its length if it does not.
fn positions(p: Profile, nodes: &[u8]) -> [u8; Profile::MAX_NODES]
    requires { Rising p.n p.k nodes.now }
    ensures { result ≡ position_table nodes.now }
{
    let mut table = [p.k as u8; Profile::MAX_NODES];
    for (q, node) in nodes.iter().enumerate() {
        table[*node as usize] = q as u8;
    }
    table
}

// The place of strip z of the named nodes' columns.
pub fn joined_place(p: Profile, nodes: &[u8], z: usize) -> Place
    requires { (length nodes.now ≡ p.k) × (z < p.k * p.a) }
    ensures { result ≡ joined_place p nodes.now z }
{
    let m = z / p.a;
    Place {
        node: Node(nodes[m] as usize),
        row: Row(z % p.a),
    }
}

// Its partner.
pub fn joined_partner(p: Profile, nodes: &[u8], z: usize) -> Place
    requires { Rising p.n p.k nodes.now × (z < p.k * p.a) }
    ensures { result ≡ partner_at p nodes.now z }
{
    let q = joined_place(p, nodes, z);
    p.partner(q)
}

// Whether the partner of strip z lies on a node that is not named.
fn is_half_pair(p: Profile, nodes: &[u8], positions: &[u8], z: usize) -> bool
    requires strip { Rising p.n p.k nodes.now × (z < p.k * p.a) }
    requires positions_value { positions.now ≡ position_table nodes.now }
    ensures { result ≡ is_half_pair p nodes.now z }
{
    let r = joined_partner(p, nodes, z);
    let j = r.node.0;
    let q = positions[j] as usize;
    !(q < p.k)
}

// Writes the numbers of the half pairs, and returns how many there are. `out` has room for all strips.
fn list_half_pairs(out: &mut [u8], p: Profile, nodes: &[u8], positions: &[u8]) -> usize
    requires room { Rising p.n p.k nodes.now × (length out.old ≡ side) }
    requires positions_value { positions.now ≡ position_table nodes.now }
    ensures { Wrote out.old 0 (half_pairs p nodes.now) result out.new }
{
    let mut next: usize = 0;
    for z in 0..p.k * p.a {
        let wanted = is_half_pair(p, nodes, positions, z);
        next = lists::put_if(out, next, z, wanted);
    }
    next
}

// The weights of the named nodes at node j; zeros where j is one of them.
fn put_row(
    out: &mut [u8],
    p: Profile,
    nodes: &[u8],
    denominators: &[u8],
    positions: &[u8],
    j: usize,
)
    requires room { Rising p.n p.k nodes.now × (length out.old ≡ p.k) × (j < p.n) }
    requires denominators_value { (denominators.now ≡ denominators_of nodes.now) × (positions.now ≡ position_table nodes.now) }
    ensures { out.new ≡ weight_row p.k nodes.now j }
{
    if (positions[j] as usize) < p.k {
        strips::fill(out, 0);
        return;
    }
    coefficients::weights(nodes, denominators, j as u8, out);
}

// The weights at all nodes, node after node.
fn put_weights(out: &mut [u8], p: Profile, nodes: &[u8], positions: &[u8])
    requires room { Rising p.n p.k nodes.now × (length out.old ≡ p.n * p.k) }
    requires positions_value { positions.now ≡ position_table nodes.now }
    ensures { out.new ≡ node_weights p nodes.now }
{
    let k = p.k;
    let mut denominators = [0u8; Profile::MAX_NODES];
    coefficients::denominators(nodes, &mut denominators[..k]);
    let denominators = &denominators[..k];
    lists::each_part(out, k, p.n, |j, row| {
        put_row(row, p, nodes, denominators, positions, j)
    });
}

// The same, in a table that a call makes once.
fn weight_table(p: Profile, nodes: &[u8], positions: &[u8]) -> [u8; WEIGHTS]
    requires { Rising p.n p.k nodes.now × (positions.now ≡ position_table nodes.now) }
    ensures { result ≡ weight_table p nodes.now }
{
    let width = p.n * p.k;
    let mut table = [0u8; WEIGHTS];
    put_weights(&mut table[..width], p, nodes, positions);
    table
}

// The coefficient of the half pair y's partner in the equation for the base symbol at r, which is not on a named node:
// the factor with which the partner stands in strip y, times the weight of y's node at that of r; 0 where y is in
// another row.
fn partner_coefficient(p: Profile, nodes: &[u8], table: &[u8], r: Place, y: usize) -> u8
    requires strip { Rising p.n p.k nodes.now × (y < p.k * p.a) }
    requires within { Within p r × (is_named p.k nodes.now r.node.0 ≡ false) }
    requires table_value { (table.now ≡ weight_table p nodes.now)
        × (is_named p.k nodes.now (partner_at p nodes.now y).node.0 ≡ false) }
    ensures { result ≡ number (coefficient_in p nodes.now r y) }
{
    let q = joined_place(p, nodes, y);
    if q.row.0 != r.row.0 {
        return 0;
    }
    let row = q.row;
    let c = p.factor(row, q.node.0 % p.a);
    gf256::mul(c, table[r.node.0 * p.k + y / p.a])
}

// Line e of the system: the coefficient of each half pair's partner in the equation for that of the e-th half pair, and
// 1 more for its own.
fn system_line(p: Profile, nodes: &[u8], table: &[u8], halves: &[u8], e: usize) -> [u8; SIDE]
    requires weights { Rising p.n p.k nodes.now × (table.now ≡ weight_table p nodes.now) }
    requires halves_value { (halves.now ≡ half_pairs p nodes.now) × (e < length halves.now) }
    ensures { result ≡ system_line p nodes.now e }
{
    let r = joined_partner(p, nodes, halves[e] as usize);
    let mut c = [0u8; SIDE];
    for (f, half) in halves.iter().enumerate() {
        c[f] = partner_coefficient(p, nodes, table, r, *half as usize);
    }
    c[e] ^= 1;
    c
}

// The half pairs of the named nodes and what belongs to them, once for a call. Past the half pairs `halves` holds
// zeros.
pub fn of_nodes(p: Profile, nodes: &[u8]) -> HalfPairs
    requires { Rising p.n p.k nodes.now }
    ensures { HalfPairsOf p nodes.now result }
{
    let positions = positions(p, nodes);
    let table = weight_table(p, nodes, &positions);
    let mut halves = [0u8; SIDE];
    let count = list_half_pairs(&mut halves, p, nodes, &positions);
    HalfPairs {
        positions,
        halves,
        count,
        table,
    }
}

// The system, made of them: a line for each half pair. Lines past them hold zeros.
pub fn small_system(p: Profile, nodes: &[u8], h: &HalfPairs) -> [Line; SIDE]
    requires { Rising p.n p.k nodes.now × HalfPairsOf p nodes.now h.now }
    ensures { result ≡ system_square p nodes.now }
{
    let halves = &h.halves[..h.count];
    let mut s = [Line { c: [0u8; SIDE] }; SIDE];
    for e in 0..h.count {
        let c = system_line(p, nodes, &h.table, halves, e);
        s[e] = Line { c };
    }
    s
}
