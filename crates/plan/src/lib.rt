// The plan: the places that are read to rebuild a lost node.
#![tactic(auto)]

ghost use Rattle.std.specs.Prelude.{◌≡◌, ◌∷◌, [], ℕ, ◌+◌, ◌-◌, ◌%◌, ◌<◌, ◌≤◌, length, get_or, take};
ghost use Rattle.lists.specs.Listed.{around};
ghost use Rattle.lists.specs.Put.{Wrote};
ghost use Rattle.document.specs.Profile.{max_nodes};
ghost use Rattle.document.specs.Plan.{walk_start, walk_of, nodes_over, planned, price_of, plan_bytes, plan_with, plan_of};
ghost use Rattle.plan.specs.Steps.{in_step, places_at, places_of};

use document::{Node, Numbers, Place, Profile, Refusal, Row};

// The three steps of document 01, by the nodes that they go over: the others of the lost node's group; those of other
// groups at its local column; those of other groups at other local columns.
//
// A kind and no closure: `rebuild` asks for a step by its name, and `in_step` of specs/ is defined by it.
#[derive(Clone, Copy)]
pub enum Step {
    Own,
    Diagonal,
    OffDiagonal,
}

// No plan of an accepted profile has more places: (24,20,4) has as many.
pub const MAX_PLACES: usize = 38;

// Whether the step goes over node j. Profile and lost node stay two parameters: every definition takes the two, and
// clauses would only read them out of a struct again.
pub fn in_step(step: Step, p: Profile, f: Node, j: usize) -> bool
    ensures { result ≡ in_step step p.a f j }
{
    let group = j / p.a == f.0 / p.a;
    let column = j % p.a == f.0 % p.a;
    match step {
        Step::Own => group && !column,
        Step::Diagonal => !group && column,
        Step::OffDiagonal => !group && !column,
    }
}

// Where steps 2 and 3 begin: at node 0 in edition 1, else at the node after the lost one.
fn walk_start(p: Profile, f: Node) -> usize
    requires { f.0 < p.n }
    ensures { result ≡ walk_start p f }
{
    if p.edition == 1 {
        return 0;
    }
    f.0 + 1
}

// Node i of a walk from `start`, which wraps past n-1 to 0.
fn node_at(p: Profile, start: usize, i: usize) -> usize
    requires { (start ≤ p.n) × (i < p.n) }
    ensures { result ≡ (start + i) % p.n }
{
    let j = start + i;
    if j < p.n {
        return j;
    }
    j - p.n
}

// Writes the numbers of the nodes that the step goes over, walking from `start`, until the list ends at `end` or the
// nodes run out.
fn list_step(
    out: &mut [u8],
    at: usize,
    end: usize,
    p: Profile,
    f: Node,
    step: Step,
    start: usize,
) -> usize
    requires { (start ≤ p.n) × (at ≤ end) × (end ≤ length out.old) }
    ensures { Wrote out.old at
        (take (end - at) (around p.n start (in_step step p.a f))) result out.new }
{
    let mut next = at;
    for i in 0..p.n {
        if next == end {
            return next;
        }
        let j = node_at(p, start, i);
        let wanted = in_step(step, p, f, j);
        next = lists::put_if(out, next, j, wanted);
    }
    next
}

// Writes a place as two bytes.
fn put_place(out: &mut [u8], at: usize, q: Place) -> usize
    requires { (at + 2 ≤ length out.old) × (q.node.0 < 256) × (q.row.0 < 256) }
    ensures { Wrote out.old at (plan_bytes (q ∷ [])) result out.new }
{
    out[at] = q.node.0 as u8;
    out[at + 1] = q.row.0 as u8;
    at + 2
}

// Writes the places that are read for node j.
fn put_node(out: &mut [u8], at: usize, p: Profile, f: Node, j: usize) -> usize
    requires { (j < p.n) × (at + length (plan_bytes (places_at p.a f j)) ≤ length out.old) }
    ensures { Wrote out.old at (plan_bytes (places_at p.a f j)) result out.new }
{
    let q = Place {
        node: Node(j),
        row: Row(f.0 % p.a),
    };
    let next = put_place(out, at, q);
    if in_step(Step::OffDiagonal, p, f, j) {
        return put_place(out, next, p.partner(q));
    }
    next
}

// Writes the places that are read for each of the nodes.
fn put_nodes(out: &mut [u8], p: Profile, f: Node, nodes: &[u8]) -> usize
    requires { ((i : ℕ) → i < length nodes.now → get_or nodes.now i 0 < p.n)
        × (length (plan_bytes (places_of p.a f nodes.now)) ≤ length out.old) }
    ensures { Wrote out.old 0
        (plan_bytes (places_of p.a f nodes.now)) result out.new }
{
    let mut at = 0;
    for node in nodes {
        at = put_node(out, at, p, f, usize::from(*node));
    }
    at
}

// Writes the numbers of the nodes that the plan reads at, and returns how many there are.
pub fn list_nodes(out: &mut [u8], p: Profile, f: Node) -> usize
    requires { (f.0 < p.n) × (max_nodes ≤ length out.old) }
    ensures { Wrote out.old 0 (nodes_over p.k (walk_of p f)) result out.new }
{
    let own = list_step(out, 0, p.a - 1, p, f, Step::Own, 0);
    let end = own + p.k;
    let start = walk_start(p, f);
    let diagonal = list_step(out, own, end, p, f, Step::Diagonal, start);
    list_step(out, diagonal, end, p, f, Step::OffDiagonal, start)
}

// Writes the planned places, two bytes each, and returns the number of bytes.
pub fn put_plan(out: &mut [u8], p: Profile, f: Node) -> usize
    requires { (f.0 < p.n) × (length (plan_bytes (planned p f)) ≤ length out.old) }
    ensures { Wrote out.old 0 (plan_bytes (planned p f)) result out.new }
{
    let mut nodes = [0u8; Profile::MAX_NODES];
    let end = list_nodes(&mut nodes, p, f);
    put_nodes(out, p, f, &nodes[..end])
}

// The number of planned places: the same for every lost node.
pub fn price(p: Profile) -> usize
    ensures { result ≡ price_of p.n p.k p.a }
{
    let others = p.n / p.a - 1;
    let singles = p.k.min(others);
    p.a - 1 + p.k + (p.k - singles)
}

// Plans with an accepted profile.
fn plan_with(p: Profile, f: Node, places: &mut [u8]) -> Result<usize, Refusal>
    ensures { (result, places.new) ≡ plan_with p f places.old }
{
    if f.0 >= p.n {
        return Err(Refusal::OutOfRange);
    }
    let count = price(p);
    if places.len() < 2 * count {
        return Err(Refusal::BufferLength);
    }
    put_plan(places, p, f);
    Ok(count)
}

// Writes the plan for a lost node, two bytes a place; bytes past it stay. After a refusal all bytes are what they were.
pub fn plan(p: Numbers, lost: usize, places: &mut [u8]) -> Result<usize, Refusal>
    ensures { (result, places.new) ≡ plan_of p lost places.old }
{
    let profile = Profile::new(p)?;
    plan_with(profile, Node(lost), places)
}
