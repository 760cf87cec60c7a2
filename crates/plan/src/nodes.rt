// One node of the table: a leaf's from the loads, a join's from its children's.
ghost use Rattle.std.specs.Prelude.{◌≡◌, ℕ, ◌+◌, ◌≤◌, ◌<◌, ◌∷◌, [], length, get_or};
ghost use Rattle.plan.specs.Table.{row};
ghost use Rattle.plan.specs.Steps.{loaded_by, count_by, added, pairs_by, node_leaf, node_joined, Small};

use crate::arrays::shape;
use crate::coverage::{coverage, factor};
use crate::rows::row;
use crate::{Chains, Node, Shape};

// Whether the chain at `k`, counted from 0, visits the centre. A type for a centre in 1 .. 16 would be no plainer: it would be made from
// the model's number at each node, where 0 is a join, and taken apart again for the entry.
#[tactic(auto, unfolding(crate::specs::Steps::loaded_by, network::specs::Centre::visit))]
pub fn visits(loads: &[u64; 128], centre: usize, k: usize) -> bool
    requires { (1 ≤ centre) × (centre ≤ 16) × (k < 8) }
    ensures { result ≡ loaded_by loads.now k centre }
{
    loads[(centre - 1) * 8 + k] != 0
}

// 1 if the chain at `k`, counted from 0, visits the centre, else 0.
#[tactic(auto, unfolding(crate::specs::Steps::count_by, sums::specs::Lists::those, sums::specs::Lists::when))]
pub fn visiting(loads: &[u64; 128], centre: usize, k: usize) -> usize
    requires { (1 ≤ centre) × (centre ≤ 16) × (k < 8) }
    ensures { result ≡ count_by loads.now k (centre ∷ []) }
{
    usize::from(visits(loads, centre, k))
}

fn leaf_counts(ch: &Chains, loads: &[u64; 128], centre: usize) -> [usize; 8]
    requires { (1 ≤ centre) × (centre ≤ 16) }
    ensures { result ≡ row ch.now.count (λ k. count_by loads.now k (centre ∷ [])) }
{
    row(ch.count, |k| visiting(loads, centre, k))
}

#[tactic(auto, unfolding(crate::specs::Steps::added))]
fn join_counts(ch: &Chains, left: &[usize; 8], right: &[usize; 8]) -> [usize; 8]
    requires { ((k : ℕ) → get_or left.now k 0 ≤ 31) × ((k : ℕ) → get_or right.now k 0 ≤ 31) }
    ensures { result ≡ added ch.now.count left.now right.now }
{
    row(ch.count, |k| left[k] + right[k])
}

// The product of the chains' factors; `joined` has the counts at the join.
fn pairs(ch: &Chains, left: &[usize; 8], right: &[usize; 8], joined: &[usize; 8]) -> u64
    ensures { result ≡ pairs_by ch.now left.now right.now joined.now }
{
    let mut product: usize = 1;
    for k in (0..ch.count).rev() {
        let l = coverage(left[k], ch.totals[k]);
        let r = coverage(right[k], ch.totals[k]);
        let j = coverage(joined[k], ch.totals[k]);
        product = factor(l, r, j, ch.windows[k]) * product;
    }
    product as u64
}

#[tactic(auto, unfolding(crate::specs::Steps::node_leaf))]
pub fn leaf_node(ch: &Chains, loads: &[u64; 128], centre: usize, base: usize) -> Node
    requires { (1 ≤ centre) × (centre ≤ 16) }
    ensures { result ≡ node_leaf ch.now loads.now centre base }
{
    let counts = leaf_counts(ch, loads, centre);
    let Shape { cells, strides } = shape(ch, &counts);
    Node {
        centre,
        span: 1,
        counts,
        base,
        cells,
        strides,
        pairs: 0,
    }
}

#[tactic(auto, unfolding(crate::specs::Steps::node_joined))]
pub fn join_node(ch: &Chains, left: &Node, right: &Node, base: usize) -> Node
    requires { Small left.now × Small right.now }
    ensures { result ≡ node_joined ch.now left.now right.now base }
{
    let counts = join_counts(ch, &left.counts, &right.counts);
    let Shape { cells, strides } = shape(ch, &counts);
    Node {
        centre: 0,
        span: left.span + right.span + 1,
        counts,
        base,
        cells,
        strides,
        pairs: pairs(ch, &left.counts, &right.counts, &counts),
    }
}
