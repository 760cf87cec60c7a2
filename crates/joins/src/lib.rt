// The pairs of one join, with a skip and a budget, over any number of chains.
#![tactic(auto)]

mod flat; // flat.rt: a join's loops and rows, from its chains
mod walks; // walks.rt: the walk over the pairs that they give, cell by cell

ghost use Rattle.std.specs.Prelude.{◌≡◌, length};
ghost use Rattle.network.specs.Pairs.{own_pairs};
ghost use Rattle.joins.specs.Walk.{state, walk, ended};
ghost use Rattle.joins.specs.Join.{JoinOf};

use cellsums::{Part, Row};

// The cells of the two children and the join's own.
#[derive(Clone, Copy)]
pub struct Join {
    pub left: Part,
    pub right: Part,
    pub own: Part,
}

// A chain that is partial at the result: its window and one, its row if it is shared, and its strides.
#[derive(Clone, Copy)]
pub struct Loop {
    pub count: usize,
    pub row: Option<usize>,
    pub left: usize,
    pub right: usize,
    pub own: usize,
}

// Where a turn of a loop begins: the places in the children's cells and the join's own, and how many pairs its first cell has.
#[derive(Clone, Copy)]
pub struct Turn {
    pub left: usize,
    pub right: usize,
    pub own: usize,
    pub count: usize,
}

// How many pairs are still to be skipped and to be added, and whether a pair ended the walk. No Result: the budget left is read of a walk
// that is over too (runs' number done), and the skip goes on from join to join.
#[derive(Clone, Copy)]
pub struct Quota {
    pub skip: usize,
    pub budget: usize,
    pub over: bool,
}

// No pair changes the walk any more: one has ended it, or none is left to skip and the budget is spent. The quota comes field by field: with
// the whole of it, and with neither walk_alone nor the copy at the end of walk_last, motorhome took 6 percent longer (the three were tried
// together).
pub fn ended(over: bool, skip: usize, budget: usize) -> bool
    ensures { result ≡ ended over skip budget }
{
    over || skip == 0 && budget == 0
}

// How much of the arrays of loops and rows is used, and how many pairs the first result cell has. Counts beside two arrays of fixed length:
// there is no heap, and a chain has a loop, a row or both, so the two grow by turns.
#[derive(Clone, Copy)]
pub struct Used {
    pub loops: usize,
    pub rows: usize,
    pub count: usize,
}

// The pairs of one join of a network, from its windows, the strides of the children and the join, and where their cells lie. The strides lie
// in three entries of the table: one list of chains would be a copy of them for each join.
pub fn walk_join(
    area: &mut [u64],
    windows: &[usize],
    left: &[usize],
    right: &[usize],
    own: &[usize],
    parts: Join,
    q: Quota,
) -> Quota
    requires { JoinOf windows.now left.now right.now own.now parts (length area.old) }
    ensures { (j : JoinOf windows.now left.now right.now own.now parts (length area.old)) → state result area.new ≡ walk (own_pairs j.routes windows.now j.left j.right j.start) (state q area.old) }
{
    let mut loops = [Loop {
        count: 0,
        row: None,
        left: 0,
        right: 0,
        own: 0,
    }; 8];
    let mut rows = [Row {
        count: 0,
        left: 0,
        right: 0,
    }; 8];
    let used = flat::flatten(&mut loops, &mut rows, windows, left, right, own);
    let at = Turn {
        left: 0,
        right: 0,
        own: 0,
        count: used.count,
    };
    walks::walk_loops(
        area,
        parts,
        &loops[..used.loops],
        &mut rows[..used.rows],
        at,
        q,
    )
}
