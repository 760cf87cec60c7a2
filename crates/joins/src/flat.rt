// A join's loops and rows, from its chains. A chain has its window n and its strides a, b and c in the left child, the right child and the
// join, 0 where it is not partial.
ghost use Rattle.std.specs.Prelude.{◌≡◌, ◌≤◌, length};
ghost use Rattle.joins.specs.Flat.{flat, nothing, add_chain, add_chains, Room, Grown, Chains};

use crate::{Loop, Used};
use cellsums::Row;

// A shared chain has a row, whose count a loop sets where the chain is partial at the join. Any other chain has a loop if it has an index at
// the join, and no row.
fn add_chain(
    loops: &mut [Loop],
    rows: &mut [Row],
    u: Used,
    n: usize,
    a: usize,
    b: usize,
    c: usize,
) -> Used
    requires { Room u n (length loops.old) (length rows.old) }
    ensures { (flat result loops.new rows.new ≡ add_chain (flat u loops.old rows.old) n a b c) × Grown u result n }
{
    let shared = a != 0 && b != 0;
    if shared && c == 0 {
        rows[u.rows] = Row {
            count: n + 1,
            left: a,
            right: b,
        };
        return Used {
            rows: u.rows + 1,
            count: u.count * (n + 1),
            ..u
        };
    }
    if c == 0 {
        return u;
    }
    if shared {
        rows[u.rows] = Row {
            count: 1,
            left: a,
            right: b,
        };
        loops[u.loops] = Loop {
            count: n + 1,
            row: Some(u.rows),
            left: 0,
            right: 0,
            own: c,
        };
        return Used {
            loops: u.loops + 1,
            rows: u.rows + 1,
            ..u
        };
    }
    loops[u.loops] = Loop {
        count: n + 1,
        row: None,
        left: a,
        right: b,
        own: c,
    };
    Used {
        loops: u.loops + 1,
        ..u
    }
}

// The loops and rows of all chains, in the order of the chains.
pub fn flatten(
    loops: &mut [Loop],
    rows: &mut [Row],
    windows: &[usize],
    left: &[usize],
    right: &[usize],
    own: &[usize],
) -> Used
    requires { (length loops.old ≡ 8) × (length rows.old ≡ 8) × Chains windows.now left.now right.now own.now }
    ensures { (flat result loops.new rows.new ≡ add_chains nothing windows.now left.now right.now own.now) × (result.loops ≤ 8) × (result.rows ≤ 8) }
{
    let mut u = Used {
        loops: 0,
        rows: 0,
        count: 1,
    };
    // four slices side by side: three zips would be no plainer
    for k in 0..windows.len() {
        u = add_chain(loops, rows, u, windows[k], left[k], right[k], own[k]);
    }
    u
}
