// What a start writes, node by node in postorder: each leaf's weights, and 0 in every cell of a join. Whether a leaf has a weight that is
// too large is a question of its own, asked before any cell is written.
#![tactic(auto)]

mod leaves; // leaves.rt: the cells of one leaf

ghost use Rattle.std.specs.Prelude.{◌≡◌, false, ◌++◌, ◌+◌, ◌≤◌, length, drop, replicate};
ghost use Rattle.sums.specs.Lists.{some};
ghost use Rattle.calls.specs.Asked.{cells_in, filled_by};
ghost use Rattle.calls.specs.Start.{too_large};
ghost use Rattle.plan.specs.Asking.{Ready, windows_of_run, RoomFor};
ghost use Rattle.fills.specs.Nodes.{node_cells, put, NodeIn};

use crate::leaves::{leaf_too_large, write_leaf};
use plan::{Chains, Node, Run};

pub fn clear(part: &mut [u64])
    ensures { part.new ≡ replicate (length part.old) 0 }
{
    part.fill(0);
}

fn node_too_large(loads: &[u64], ch: &Chains, n: &Node) -> bool
    requires { NodeIn loads.now ch.now n.now }
    ensures { result ≡ some too_large (node_cells loads.now ch.now n.now) }
{
    n.centre != 0 && leaf_too_large(loads, ch, n)
}

fn write_node(loads: &[u64], ch: &Chains, n: &Node, area: &mut [u64])
    requires node { NodeIn loads.now ch.now n.now }
    requires room { n.now.base + n.now.cells ≤ length area.old }
    requires none_large { some too_large (node_cells loads.now ch.now n.now) ≡ false }
    ensures { area.new ≡ put n.now.base (node_cells loads.now ch.now n.now) area.old }
{
    if n.centre == 0 {
        let from = n.base;
        let to = from + n.cells;
        clear(&mut area[from..to]);
    } else {
        write_leaf(loads, ch, n, area);
    }
}

pub fn some_leaf_too_large(run: &Run) -> bool
    requires { Ready run.now }
    ensures { result ≡ some too_large (filled_by run.now.model (windows_of_run run.now)) }
{
    let ch = run.chains();
    let nodes = &run.table.nodes[..run.table.count];
    nodes
        .iter()
        .any(|n| node_too_large(&run.model.loads, &ch, n))
}

// The cells past the model's stay as they are.
pub fn fill(run: &Run, area: &mut [u64])
    requires ready { Ready run.now }
    requires room { RoomFor run.now (length area.old) }
    requires none_large { some too_large (filled_by run.now.model (windows_of_run run.now)) ≡ false }
    ensures { area.new ≡ filled_by run.now.model (windows_of_run run.now) ++ drop (cells_in run.now.model (windows_of_run run.now)) area.old }
{
    let ch = run.chains();
    for n in &run.table.nodes[..run.table.count] {
        write_node(&run.model.loads, &ch, n, area);
    }
}
