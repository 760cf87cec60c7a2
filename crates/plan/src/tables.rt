// The table of a model, by a loop over its nodes with no stack: in postorder a join's right child is the entry before it, and its left
// child the entry before the right subtree.
ghost use Rattle.std.specs.Prelude.{◌≡◌, ℕ, ◌+◌, ◌-◌, ◌≤◌, ◌<◌, length, get_or, take, count_by as counting};
ghost use Rattle.std.specs.List.{range_with_len};
ghost use Rattle.sums.specs.Lists.{from};
ghost use Rattle.modelfile.proofs.Guaranteed.{Guaranteed};
ghost use Rattle.plan.specs.Table.{row, Tabled};
ghost use Rattle.plan.specs.Steps.{loaded_by, count_by, left_of, right_of, node_by, empty_table, Small};

use crate::nodes::{join_node, leaf_node, visits};
use crate::rows::row;
use crate::{Chains, Node, Table};
use modelfile::Model;

// How many centres the chain at `k` visits.
fn total(loads: &[u64; 128], centres: usize, k: usize) -> usize
    requires { (centres ≤ 16) × (k < 8) }
    ensures { result ≡ counting (λ c. loaded_by loads.now k (c + 1)) (range_with_len 0 centres) }
{
    (0..centres).filter(|c| visits(loads, *c + 1, k)).count()
}

#[tactic(auto, using(crate::proofs::LoadLaws::counted))]
fn totals_of(loads: &[u64; 128], centres: usize, chains: usize) -> [usize; 8]
    requires { (centres ≤ 16) × (chains ≤ 8) }
    ensures { result ≡ row chains (λ k. count_by loads.now k (from 1 centres)) }
{
    row(chains, |k| total(loads, centres, k))
}

impl Table {
    // The left and the right child of a join at place `i`.
    #[tactic(auto, unfolding(crate::specs::Steps::left_of, crate::specs::Steps::right_of))]
    pub fn children(&self, i: usize) -> (&Node, &Node)
        requires { i ≤ 31 }
        ensures left { result.0.now ≡ left_of self.now i }
        ensures right { result.1.now ≡ right_of self.now i }
    {
        let right = &self.nodes[i.saturating_sub(1)];
        let left = &self.nodes[i.saturating_sub(1).saturating_sub(right.span)];
        (left, right)
    }
}

// The entry of the next node: 0 is a join of the two entries, any other number a leaf's centre.
#[tactic(auto, unfolding(crate::specs::Steps::node_by))]
fn made(
    ch: &Chains,
    loads: &[u64; 128],
    left: &Node,
    right: &Node,
    base: usize,
    node: usize,
) -> Node
    requires { (node ≤ 16) × (node ≡ 0 → Small left.now × Small right.now) }
    ensures { result ≡ node_by ch.now loads.now left.now right.now base node }
{
    if node == 0 {
        join_node(ch, left, right, base)
    } else {
        leaf_node(ch, loads, node, base)
    }
}

#[tactic(auto, unfolding(crate::specs::Steps::empty_table))]
pub fn empty_table(totals: [usize; 8]) -> Table
    ensures { result ≡ empty_table totals }
{
    let none = Node {
        centre: 0,
        span: 0,
        counts: [0; 8],
        base: 0,
        cells: 0,
        strides: [0; 8],
        pairs: 0,
    };
    Table {
        nodes: [none; 31],
        count: 0,
        totals,
        cells: 0,
        pairs: 0,
    }
}

// The table grows where it stands: handed on, each node would cost a copy of all. Its clauses stay clauses: Guaranteed for the reason at Run
// (lib.rt), the windows since a narrower type would ask more of callers.
pub fn make_table(m: Model, windows: [usize; 8]) -> Table
    requires { Guaranteed m × ((k : ℕ) → get_or windows k 0 ≤ 15) × (length windows ≡ 8) }
    ensures { Tabled m windows result }
{
    let totals = totals_of(&m.loads, m.centres, m.chains);
    let ch = Chains::new(m.chains, totals, windows);
    let mut t = empty_table(totals);
    for node in &m.nodes[..m.count] {
        let n = t.count;
        let (left, right) = t.children(n);
        let e = made(&ch, &m.loads, left, right, t.cells, *node);
        t.nodes[n] = e;
        t.count += 1;
        t.cells += e.cells;
        t.pairs += e.pairs;
    }
    t
}
