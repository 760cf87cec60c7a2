// The pairs of a table's joins, one join after the other, with a skip and a budget.
#![tactic(auto)]

ghost use Rattle.std.specs.Prelude.{◌≡◌, ◌+◌, ◌^◌, ◌<◌, length};
ghost use Rattle.calls.specs.Asked.{pairs_listed};
ghost use Rattle.plan.specs.Asking.{Ready, windows_of_run, RoomFor};
ghost use Rattle.joins.specs.Walk.{state, walk};
ghost use Rattle.spends.specs.Joins.{part_of, JoinIn, NodeIn, join_pairs, node_pairs};

use cellsums::Part;
use joins::{Join, Quota};
use plan::{Chains, Node, Run};

// Where a node's own cells lie.
fn part_of(node: &Node) -> Part
    requires { node.now.base + node.now.cells < 2 ^ 64 }
    ensures { result ≡ part_of node.now }
{
    Part {
        from: node.base,
        to: node.base + node.cells,
    }
}

// The pairs of a join, from the table's entries of its children and its own.
fn join_pairs(
    ch: &Chains,
    left: &Node,
    right: &Node,
    own: &Node,
    area: &mut [u64],
    q: Quota,
) -> Quota
    requires { JoinIn ch.now left.now right.now own.now (length area.old) }
    ensures { (j : JoinIn ch.now left.now right.now own.now (length area.old)) → state result area.new ≡ walk (join_pairs j) (state q area.old) }
{
    let n = ch.count;
    let parts = Join {
        left: part_of(left),
        right: part_of(right),
        own: part_of(own),
    };
    joins::walk_join(
        area,
        &ch.windows[..n],
        &left.strides[..n],
        &right.strides[..n],
        &own.strides[..n],
        parts,
        q,
    )
}

// A leaf has no pairs; a join whose pairs are all done is passed over by their number.
fn node_pairs(
    ch: &Chains,
    left: &Node,
    right: &Node,
    own: &Node,
    area: &mut [u64],
    q: Quota,
) -> Quota
    requires { NodeIn ch.now left.now right.now own.now (length area.old) }
    ensures { (x : NodeIn ch.now left.now right.now own.now (length area.old)) → state result area.new ≡ walk (node_pairs x) (state q area.old) }
{
    if own.centre != 0 || q.over {
        return q;
    }
    let pairs = own.pairs as usize;
    if pairs <= q.skip {
        return Quota {
            skip: q.skip - pairs,
            ..q
        };
    }
    join_pairs(ch, left, right, own, area, q)
}

// The pairs of the table's joins, in order, until the walk ends.
fn table_pairs(run: &Run, area: &mut [u64], q: Quota) -> Quota
    requires ready { Ready run.now }
    requires room { RoomFor run.now (length area.old) }
    ensures { state result area.new ≡ walk (pairs_listed run.now.model (windows_of_run run.now)) (state q area.old) }
{
    let ch = run.chains();
    let mut e = q;
    for i in 0..run.table.count {
        let (left, right) = run.table.children(i);
        e = node_pairs(&ch, left, right, &run.table.nodes[i], area, e);
        if joins::ended(e.over, e.skip, e.budget) {
            break;
        }
    }
    e
}

// The pairs of all joins, in order. Without a budget they are only skipped, all at once.
pub fn spend(run: &Run, area: &mut [u64], q: Quota) -> Quota
    requires ready { Ready run.now }
    requires room { RoomFor run.now (length area.old) }
    ensures { state result area.new ≡ walk (pairs_listed run.now.model (windows_of_run run.now)) (state q area.old) }
{
    if q.over {
        return q;
    }
    if q.budget == 0 {
        // written out: with `..q` the code of add_rows came to lie 16 bytes on, and dense models took a sixth longer
        return Quota {
            skip: q.skip.saturating_sub(run.table.pairs as usize),
            budget: 0,
            over: false,
        };
    }
    table_pairs(run, area, q)
}
