// The cells of one leaf: what each chain has there, whether a weight is too large, and the weights written into its part of the area.
ghost use Rattle.std.specs.Prelude.{◌≡◌, false, ◌+◌, ◌≤◌, length, take};
ghost use Rattle.sums.specs.Lists.{some};
ghost use Rattle.network.specs.Cells.{span};
ghost use Rattle.calls.specs.Start.{too_large};
ghost use Rattle.weights.specs.Leaf.{reach_by, reaches as reaches_of};
ghost use Rattle.plan.specs.Steps.{covering};
ghost use Rattle.fills.specs.Nodes.{loads_in, spans_in, leaf_cells, put, LeafIn};

use plan::coverage::coverage;
use plan::{Chains, Cover, Node};
use weights::Reach;

#[tactic(auto, unfolding(weights::specs::Leaf::lowest, weights::specs::Leaf::highest, network::specs::Cells::span, plan::specs::Steps::covering))]
fn reach(load: u64, cover: Cover, window: usize) -> Reach
    ensures { result ≡ reach_by load (span (covering cover) window) }
{
    let (low, high) = match cover {
        Cover::Finished => (window, window),
        Cover::Partial => (0, window),
        Cover::Absent => (0, 0),
    };
    Reach { load, low, high }
}

// The chains of a leaf; past their number the entries are unused (an array of fixed length: there is no heap). The loads, the chains and the
// entry come side by side: a struct would be made of the three at each node and taken apart here again, and the definitions name each.
fn reaches(loads: &[u64], ch: &Chains, n: &Node) -> [Reach; 8]
    requires { LeafIn loads.now ch.now n.now }
    ensures { take ch.now.count result ≡ reaches_of (loads_in loads.now ch.now n.now) (spans_in ch.now n.now) }
{
    let first = (n.centre - 1) * 8;
    let mut chains = [Reach::default(); 8];
    for k in 0..ch.count {
        let cover = coverage(n.counts[k], ch.totals[k]);
        chains[k] = reach(loads[first + k], cover, ch.windows[k]);
    }
    chains
}

pub fn leaf_too_large(loads: &[u64], ch: &Chains, n: &Node) -> bool
    requires { LeafIn loads.now ch.now n.now }
    ensures { result ≡ some too_large (leaf_cells loads.now ch.now n.now) }
{
    let chains = reaches(loads, ch, n);
    weights::some_too_large(&chains[..ch.count])
}

pub fn write_leaf(loads: &[u64], ch: &Chains, n: &Node, area: &mut [u64])
    requires leaf { LeafIn loads.now ch.now n.now }
    requires room { n.now.base + n.now.cells ≤ length area.old }
    requires none_large { some too_large (leaf_cells loads.now ch.now n.now) ≡ false }
    ensures { area.new ≡ put n.now.base (leaf_cells loads.now ch.now n.now) area.old }
{
    let chains = reaches(loads, ch, n);
    let from = n.base;
    let to = from + n.cells;
    weights::write_cells(&chains[..ch.count], &mut area[from..to]);
}
