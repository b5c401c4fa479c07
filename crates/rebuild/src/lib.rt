// The rebuild of one lost node: one strip for each planned node, pairs folded; then each row of the lost column is one
// sum of these strips, by coefficients computed once a row.
#![tactic(auto)]

ghost use Rattle.std.specs.Prelude.{◌≡◌, ◌≢◌, [], ◌∷◌, ℕ, ◌+◌, ◌*◌, ◌^◌, ◌<◌, ◌-◌, ◌%◌, ◌≤◌, length, slice_index};
ghost use Rattle.lists.specs.Positions.{position_in};
ghost use Rattle.document.specs.ByteField.{number};
ghost use Rattle.document.specs.Plan.{walk_of, chosen_over, nodes_over, planned};
ghost use Rattle.document.specs.Rebuild.{given_at, rebuilt_of, rebuild_with, rebuild_of};
ghost use Rattle.plan.specs.Steps.{places_at};
ghost use Rattle.rebuild.specs.Folded.{folded_of, StripsFit, NodeAt};
ghost use Rattle.gf256.specs.Field.{quotients_of, NoZero};
ghost use Rattle.coefficients.specs.Weights.{Different, Outside, denominators_of, weights_of};
ghost use Rattle.rebuild.specs.Rows.{member_at, determinants_of, own_scale_at, scale_at};
ghost use Rattle.rebuild.specs.Rows.{coefficients_of, row_from};
ghost use Rattle.rebuild.specs.Column.{row_of, rows_of, NodesOf};

use document::{Node, Numbers, Profile, Recording, Refusal, Row};
use plan::Step;

// The strips that are read for the lost node f, in plan order: strip i stands in src at first + i·stride.
#[derive(Drop)]
struct Sources<'a> {
    p: Profile,
    f: Node,
    src: &'a [u8],
    first: usize,
    stride: usize,
    ghost lost: { f.0 < p.n },
    ghost fit: { StripsFit p f src.now first stride },
    ghost bytes: { (e : ℕ) → slice_index src.now e < 2 ^ 8 },
}

impl Sources<'_> {
    // Folds the strips that are read at node j into one; they stand in the plan from place m on. Returns the place after.
    fn fold_at(&self, out: &mut [u8], j: usize, m: usize) -> usize
        requires out_len { length out.old ≡ self.now.p.s }
        requires at { NodeAt self.now.p self.now.f j m }
        ensures { let g = self.now in
            let x = given_at (planned g.p g.f) g.src.now g.first g.stride in
            (result ≡ m + length (places_at g.p.a g.f j)) × (out.new ≡ folded_of g.p g.f x (j ∷ [])) }
    {
        let p = self.p;
        let f = self.f;
        let src = self.src;
        let own = self.first + m * self.stride;
        out.copy_from_slice(&src[own..own + p.s]);
        if plan::in_step(Step::OffDiagonal, p, f, j) {
            let partner = self.first + (m + 1) * self.stride;
            let c = f.0 % p.a;
            let l = j % p.a;
            let t = p.factor(Row(c), l);
            coupling::add_times(out, &src[partner..partner + p.s], t);
            return m + 2;
        }
        m + 1
    }

    // Folds them all: one strip for each of the plan's nodes.
    fn fold(&self, out: &mut [u8], nodes: &[u8])
        requires { (nodes.now ≡ nodes_over self.now.p.k (walk_of self.now.p self.now.f))
            × (length out.old ≡ length nodes.now * self.now.p.s) }
        ensures { let g = self.now in
            out.new ≡ folded_of g.p g.f (given_at (planned g.p g.f) g.src.now g.first g.stride) nodes.now }
    {
        let s = self.p.s;
        let mut m = 0;
        for (i, node) in nodes.iter().enumerate() {
            let strip = &mut out[i * s..i * s + s];
            m = self.fold_at(strip, usize::from(*node), m);
        }
    }
}

// The determinants at the chosen nodes. They do not depend on the row wanted: computed once, they serve every row.
fn pair_determinants(p: Profile, f: Node, nodes: &[u8], out: &mut [u8])
    requires { length out.old ≡ length nodes.now }
    ensures { out.new ≡ determinants_of p f nodes.now }
{
    let a = p.a;
    let c = f.0 % a;
    for (q, node) in nodes.iter().enumerate() {
        out[q] = coupling::determinant(p, Row(c), usize::from(*node) % a);
    }
}

// By what row c of node i of f's group is multiplied, where c is f's local column and i is not c: the inverse of the
// factor there, which is not 0 off the diagonal.
fn own_scale(p: Profile, f: Node, i: usize) -> u8
    requires { (i < p.a) × (i ≢ f.0 % p.a) }
    ensures { result ≡ number (own_scale_at p f i) }
{
    let c = f.0 % p.a;
    gf256::inverse_of(p.factor(Row(c), i))
}

// By what row c is multiplied for row i of the lost column.
fn scale(p: Profile, f: Node, i: usize) -> u8
    requires { i < p.a }
    ensures { result ≡ number (scale_at p f i) }
{
    let c = f.0 % p.a;
    if i == c {
        return 1;
    }
    own_scale(p, f, i) ^ p.factor(Row(i), c)
}

// The weights at the node `at`, each divided by the determinant of its node.
fn divided_weights(nodes: &[u8], denominators: &[u8], at: u8, determinants: &[u8], out: &mut [u8])
    requires different { Different nodes.now × Outside nodes.now at × (denominators.now ≡ denominators_of nodes.now) }
    requires no_zero { NoZero determinants.now × (length determinants.now ≡ length nodes.now) }
    requires out_len { length out.old ≡ length nodes.now }
    ensures { out.new ≡ quotients_of (weights_of nodes.now at) determinants.now }
{
    coefficients::weights(nodes, denominators, at, out);
    gf256::divide_all(out, determinants);
}

// What each row of the lost node f's column is made of: the folded strips, of which the A-1 of f's group stand first, the
// nodes that they were folded for, and what does not depend on the row.
#[derive(Drop)]
struct Rows<'a> {
    p: Profile,
    f: Node,
    folded: &'a [u8],
    own: &'a [u8],
    chosen: &'a [u8],
    denominators: &'a [u8],
    determinants: &'a [u8],
    ghost lost: { f.0 < p.n },
    ghost long: { (p.a - 1) * p.s + p.k * p.s ≤ length folded.now },
    ghost nodes: { NodesOf p f own.now chosen.now },
    ghost divisors: { (denominators.now ≡ denominators_of chosen.now)
        × (determinants.now ≡ determinants_of p f chosen.now) },
}

impl Rows<'_> {
    // The coefficients of row i.
    fn put_coefficients(&self, i: usize, out: &mut [u8])
        requires { (i < self.now.p.a) × (length out.old ≡ self.now.p.k) }
        ensures { out.new ≡ coefficients_of self.now.p self.now.f self.now.chosen.now i }
    {
        let p = self.p;
        let f = self.f;
        let k = p.k;
        let at = f.0 / p.a * p.a + i;
        let mut w = [0u8; Profile::MAX_NODES];
        divided_weights(
            self.chosen,
            self.denominators,
            at as u8,
            self.determinants,
            &mut w[..k],
        );
        let c = scale(p, f, i);
        coupling::put_multiple(out, &w[..k], c);
    }

    // Row i: the sum of the folded strips by the row's coefficients, and the group's own strip, the one at place `own`.
    fn sum(&self, i: usize, coefficients: &[u8], own: usize, dst: &mut [u8])
        requires lengths { (length dst.old ≡ self.now.p.s) × (length coefficients.now ≡ self.now.p.k) }
        requires i_lt_a { (i < self.now.p.a) × (i ≢ self.now.f.0 % self.now.p.a → own < self.now.p.a - 1) }
        ensures { dst.new ≡ row_from self.now.p self.now.f i own coefficients.now self.now.folded.now }
    {
        let p = self.p;
        let f = self.f;
        let s = p.s;
        strips::combine(dst, self.folded, (p.a - 1) * s, s, coefficients);
        if i != f.0 % p.a {
            let from = own * s;
            let c = own_scale(p, f, i);
            coupling::add_times(dst, &self.folded[from..from + s], c);
        }
    }

    // Row i, with its coefficients computed.
    fn put(&self, i: usize, dst: &mut [u8])
        requires { (i < self.now.p.a) × (length dst.old ≡ self.now.p.s) }
        ensures { dst.new ≡ row_of self.now.p self.now.f self.now.own.now self.now.chosen.now self.now.folded.now i }
    {
        let p = self.p;
        let f = self.f;
        let own = self.own;
        let k = p.k;
        let mut coefficients = [0u8; Profile::MAX_NODES];
        self.put_coefficients(i, &mut coefficients[..k]);
        // Node i of the group. The lost node, which is not in `own`, gives no strip: for its row the place is not read.
        let member = f.0 / p.a * p.a + i;
        let at = lists::position_of(own, member);
        self.sum(i, &coefficients[..k], at, dst);
    }
}

// The rows of the lost column. What does not depend on the row is computed once.
fn put_rows(column: &mut [u8], folded: &[u8], p: Profile, f: Node, own: &[u8], chosen: &[u8])
    requires nodes { (f.0 < p.n) × NodesOf p f own.now chosen.now }
    requires column_len { (length column.old ≡ p.a * p.s) × ((p.a - 1) * p.s + p.k * p.s ≤ length folded.now) }
    ensures { column.new ≡ rows_of p f own.now chosen.now folded.now }
{
    let k = p.k;
    let mut denominators = [0u8; Profile::MAX_NODES];
    coefficients::denominators(chosen, &mut denominators[..k]);
    let mut determinants = [0u8; Profile::MAX_NODES];
    pair_determinants(p, f, chosen, &mut determinants[..k]);
    let rows = Rows {
        p,
        f,
        folded,
        own,
        chosen,
        denominators: &denominators[..k],
        determinants: &determinants[..k],
    };
    let s = p.s;
    // A loop and no `each_part`: a closure that holds `rows`, whose parts live for two lifetimes, gets no proof yet.
    for row in 0..p.a {
        rows.put(row, &mut column[row * s..row * s + s]);
    }
}

// The rows of the lost column, from the strips folded for the plan's nodes: the A-1 of f's group, then the chosen ones.
fn rebuild_rows(column: &mut [u8], folded: &[u8], p: Profile, f: Node, nodes: &[u8])
    requires nodes { (f.0 < p.n) × (nodes.now ≡ nodes_over p.k (walk_of p f)) }
    requires column_len { (length column.old ≡ p.a * p.s) × (length folded.now ≡ length nodes.now * p.s) }
    ensures { column.new
        ≡ rows_of p f (walk_of p f).own (chosen_over p.k (walk_of p f)) folded.now }
{
    let (own, chosen) = nodes.split_at(p.a - 1);
    put_rows(column, folded, p, f, own, chosen);
}

// The lost column, from the strips of src, given in plan order, strip i at first + i·stride.
pub fn rebuild_column(
    column: &mut [u8],
    src: &[u8],
    first: usize,
    stride: usize,
    p: Profile,
    f: Node,
)
    requires column_len { (f.0 < p.n) × (length column.old ≡ p.a * p.s) }
    requires strips_fit { StripsFit p f src.now first stride }
    ensures { column.new ≡ rebuilt_of p f src.now first stride }
{
    let mut nodes = [0u8; Profile::MAX_NODES];
    let count = plan::list_nodes(&mut nodes, p, f);
    let size = count * p.s;
    let mut folded = [0u8; Profile::MAX_NODES * Profile::MAX_STRIP];
    let sources = Sources {
        p,
        f,
        src,
        first,
        stride,
    };
    sources.fold(&mut folded[..size], &nodes[..count]);
    rebuild_rows(column, &folded[..size], p, f, &nodes[..count]);
}

// Rebuilds with an accepted profile, from the strips of a bundle that passes all tests.
fn rebuild_with(
    p: Profile,
    f: Node,
    r: Recording,
    bundle: &[u8],
    column: &mut [u8],
) -> Result<usize, Refusal>
    ensures { (result, column.new) ≡ rebuild_with p f r bundle.now column.old }
{
    if f.0 >= p.n {
        return Err(Refusal::OutOfRange);
    }
    if column.len() != p.a * p.s {
        return Err(Refusal::BufferLength);
    }
    bundle::check(p, f, r, bundle)?;
    let first = bundle::first_strip(p.edition);
    let stride = message::strip_stride(p);
    rebuild_column(column, bundle, first, stride, p, f);
    Ok(0)
}

// Rebuilds the column of a lost node from a bundle. After a refusal all bytes are what they were.
pub fn rebuild(
    p: Numbers,
    lost: usize,
    r: Recording,
    bundle: &[u8],
    column: &mut [u8],
) -> Result<usize, Refusal>
    ensures { (result, column.new) ≡ rebuild_of p lost r bundle.now column.old }
{
    let profile = Profile::new(p)?;
    rebuild_with(profile, Node(lost), r, bundle, column)
}
