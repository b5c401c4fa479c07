// The sets of k nodes in lexicographic order: how many there are, the set at a position, the position of a set, and the
// next set.
#![tactic(auto)]

ghost use Rattle.std.specs.Prelude.{◌≡◌, true, ℕ, ◌+◌, ◌-◌, ◌<◌, ◌≤◌, length, get_or, drop, MatchOption};
ghost use Rattle.lists.specs.Listed.{listed};
ghost use Rattle.lists.specs.Put.{put};
ghost use Rattle.ksets.specs.Sets.{max_nodes, sets, set_at, rank_of, full, run, next_of};
ghost use Rattle.ksets.specs.Workers.{next_at, Writes};
ghost use Rattle.ksets.specs.Workers.{Shared, Ranks, Raised, Steps};

use std::array;

// The most nodes that sets are taken of.
pub const MAX_NODES: usize = 24;

// The entries of a row of Pascal's triangle, from 0 to the most nodes.
const ENTRIES: usize = MAX_NODES + 1;

// Pascal's row below `row`.
fn next_row(row: [usize; ENTRIES]) -> [usize; ENTRIES]
    requires { (k : ℕ) → get_or row k 0 ≤ 4194304 }
    ensures { result ≡ listed (max_nodes + 1) (next_at row) }
{
    array::from_fn(|k| if k == 0 { 1 } else { row[k] + row[k - 1] })
}

// Pascal's row n, from the row above it. Document 01 asks for recursion here, and where sets are written and ranked.
fn row_of(n: usize) -> [usize; ENTRIES]
    requires { n ≤ max_nodes }
    ensures { result ≡ listed (max_nodes + 1) (sets n) }
{
    if n == 0 {
        let mut first: [usize; ENTRIES] = [0; ENTRIES];
        first[0] = 1;
        return first;
    }
    let above = row_of(n - 1);
    next_row(above)
}

// The number of sets of k of n nodes.
pub fn count(n: usize, k: usize) -> usize
    requires { n ≤ max_nodes }
    ensures { result ≡ sets n k }
{
    if MAX_NODES < k {
        return 0;
    }
    let row = row_of(n);
    row[k]
}

// Of the `total` sets of k of n nodes, those with the first node: each node is in k of n of them.
fn share(total: usize, n: usize, k: usize) -> usize
    requires { Shared total n k }
    ensures { result ≡ sets (n - 1) (k - 1) }
{
    total * k / n
}

// Writes the set's nodes, k of the n nodes from b on, into `set` from `at` on; `total` is the number of these sets.
fn write_set(set: &mut [u8], at: usize, b: usize, n: usize, k: usize, pos: usize, total: usize)
    requires { Writes set.old at b n k total }
    ensures { set.new ≡ put set.old at (set_at b n k pos) }
{
    if k == 0 {
        return;
    }
    if n == 0 {
        return;
    }
    let with = share(total, n, k);
    if pos < with {
        set[at] = b as u8;
        write_set(set, at + 1, b + 1, n - 1, k - 1, pos, with);
    } else {
        write_set(set, at, b + 1, n - 1, k, pos - with, total - with);
    }
}

// Writes the set at a position.
pub fn unrank(set: &mut [u8], n: usize, pos: usize)
    requires { (n ≤ max_nodes) × (pos < sets n (length set.old)) }
    ensures { set.new ≡ set_at 0 n (length set.old) pos }
{
    let k = set.len();
    let total = count(n, k);
    write_set(set, 0, 0, n, k, pos, total);
}

// The position of the nodes from `at` on among the `total` sets of as many of the n nodes from b on.
fn rank_from(set: &[u8], at: usize, b: usize, n: usize, k: usize, total: usize) -> usize
    requires { Ranks set.now at b n k total }
    ensures { result ≡ rank_of b n (drop at set.now) }
{
    if k == 0 {
        return 0;
    }
    if n == 0 {
        return 0;
    }
    let with = share(total, n, k);
    if set[at] as usize == b {
        return rank_from(set, at + 1, b + 1, n - 1, k - 1, with);
    }
    let past = rank_from(set, at, b + 1, n - 1, k, total - with);
    with + past
}

// The position of a set.
pub fn rank(set: &[u8], n: usize) -> usize
    requires { n ≤ max_nodes }
    ensures { result ≡ rank_of 0 n set.now }
{
    let k = set.len();
    let total = count(n, k);
    rank_from(set, 0, 0, n, k, total)
}

// The last entry that can be raised, with those after it, and stay below n; none if none can.
fn raised(set: &[u8], n: usize) -> Option<usize>
    ensures { MatchOption result (full n set.now ≡ true) (Raised n set.now) }
{
    (0..set.len()).rfind(|&i| usize::from(set[i]) + set.len() - i < n)
}

// Writes v, v + 1, .. over the whole.
#[tactic(auto, using(crate::proofs::Raising::run_is))]
fn write_run(set: &mut [u8], v: u8)
    requires { v + length set.old ≤ 255 }
    ensures { set.new ≡ run v (length set.old) }
{
    for (i, x) in set.iter_mut().enumerate() {
        *x = v + i as u8;
    }
}

// The next set: the last entry that can be raised is raised by one, and those after it follow at once.
pub fn step(set: &mut [u8], n: usize)
    requires { Steps n set.old }
    ensures { set.new ≡ next_of n set.old }
{
    if let Some(at) = raised(set, n) {
        let v = set[at] + 1;
        write_run(&mut set[at..], v);
    }
}
