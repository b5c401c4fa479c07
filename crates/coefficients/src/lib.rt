// The weights of Lagrange's formula, for any node from other nodes that all differ: for each of them the inverse of the
// product of its difference and its denominator, divided by the sum of these inverses.
#![tactic(auto)]

ghost use Rattle.std.specs.Prelude.{◌≡◌, ◌≤◌, ◌<◌, max, length};
ghost use Rattle.lists.specs.Listed.{listed};
ghost use Rattle.gf256.specs.Field.{products_of};
ghost use Rattle.document.specs.Profile.{max_nodes};
ghost use Rattle.coefficients.specs.Weights.{Different, Outside, weights_of};
ghost use Rattle.coefficients.specs.Weights.{differences_of, factors_of, padded_to, denominators_of};
ghost use Rattle.coefficients.specs.Weights.{shares_of, Divisors, weights_from};
ghost use Rattle.coefficients.specs.Data.{data_denominators, data_weights};

use document::Profile;

// The bytes that are multiplied at once. Those past the last whole vector are multiplied a few at a time, so that a list
// shorter than a vector takes less time as a whole one. One of 20 bytes takes as long as two.
const VECTOR: usize = 16;

// The sum of x and each node.
fn differences(x: u8, nodes: &[u8], out: &mut [u8])
    requires { length out.old ≡ length nodes.now }
    ensures { out.new ≡ differences_of nodes.now x }
{
    for (i, node) in nodes.iter().enumerate() {
        out[i] = x ^ *node;
    }
}

// Multiplies each denominator by the difference of its node and node q; node q's own, which is 0, counts as 1. What
// stands past the denominators stays as it was.
fn multiply_differences(out: &mut [u8], nodes: &[u8], q: usize)
    requires nodes_in_bounds { (length nodes.now ≤ length out.old) × (length out.old ≤ max_nodes) }
    requires q_in_bounds { q < length nodes.now }
    ensures { out.new
        ≡ products_of out.old (padded_to (length out.old) (factors_of nodes.now q)) }
{
    let k = nodes.len();
    let w = out.len();
    let mut d = [1u8; Profile::MAX_NODES];
    differences(nodes[q], nodes, &mut d[..k]);
    d[q] = 1;
    gf256::multiply_all(out, &d[..w]);
}

// The denominators of the weights. They do not depend on the node wanted: computed once, they serve every one. All are
// made at once, a list multiplied by a list for each node: one by one they take seven times as long at k = 20.
pub fn denominators(nodes: &[u8], out: &mut [u8])
    requires different { Different nodes.now }
    requires out_len { length out.old ≡ length nodes.now }
    ensures { out.new ≡ denominators_of nodes.now }
{
    let w = nodes.len().max(VECTOR);
    let mut all = [1u8; Profile::MAX_NODES];
    for q in 0..nodes.len() {
        multiply_differences(&mut all[..w], nodes, q);
    }
    out.copy_from_slice(&all[..nodes.len()]);
}

// The weights, from the differences and the denominators. The inverse of the product of the two is a node's share: its
// weight but for a factor that all have in common. The weights add up to 1, so that they are the shares divided by their
// sum. The differences are used up: the shares are left in their place.
fn weights_from(differences: &mut [u8], denominators: &[u8], out: &mut [u8])
    requires divisors { Divisors differences.old denominators.now }
    requires out_len { length out.old ≡ length differences.old }
    ensures { (out.new ≡ weights_from differences.old denominators.now)
        × (differences.new ≡ shares_of differences.old denominators.now) }
{
    gf256::multiply_all(differences, denominators);
    gf256::invert_all(differences);
    let total = gf256::total_of(differences);
    coupling::put_multiple(out, differences, gf256::inverse_of(total));
}

// The weights of the nodes at the node `at`, which is none of them.
pub fn weights(nodes: &[u8], denominators: &[u8], at: u8, out: &mut [u8])
    requires different { Different nodes.now }
    requires outside { Outside nodes.now at }
    requires denominators_value { denominators.now ≡ denominators_of nodes.now }
    requires out_len { length out.old ≡ length nodes.now }
    ensures { out.new ≡ weights_of nodes.now at }
{
    let k = nodes.len();
    if k == 0 {
        return;
    }
    let mut d = [0u8; Profile::MAX_NODES];
    differences(at, nodes, &mut d[..k]);
    weights_from(&mut d[..k], denominators, out);
}

// The numbers of the first nodes: the data nodes are the first k of them.
const FIRST_NODES: [u8; Profile::MAX_NODES] = [
    0, 1, 2, 3, 4, 5, 6, 7, 8, 9, 10, 11, 12, 13, 14, 15, 16, 17, 18, 19, 20, 21, 22, 23,
];

// The denominators of the data nodes' weights, for as many data nodes as `out` has bytes.
pub fn data_denominators(out: &mut [u8])
    requires { length out.old ≤ max_nodes }
    ensures { out.new ≡ data_denominators (length out.old) }
{
    let k = out.len();
    denominators(&FIRST_NODES[..k], out);
}

// The weights of the data nodes at a parity node, for as many data nodes as `out` has bytes.
pub fn parity_weights(denominators: &[u8], j: usize, out: &mut [u8])
    requires out_len_bound { (length out.old ≤ max_nodes) × (length out.old ≤ j) × (j < max_nodes) }
    requires denominators_value { denominators.now ≡ data_denominators (length out.old) }
    ensures { out.new ≡ data_weights (length out.old) j }
{
    let k = out.len();
    weights(&FIRST_NODES[..k], denominators, j as u8, out);
}
