// The walk over a join's pairs, cell by cell: what is skipped is counted, and what the budget has is added.
ghost use Rattle.std.specs.Prelude.{◌≡◌, [], ◌∷◌, ◌<◌, length, set};
ghost use Rattle.cellsums.specs.Places.{places};
ghost use Rattle.joins.specs.Walk.{state, walk};
ghost use Rattle.joins.specs.Loops.{cell_pairs, loop_pairs, Inside, turn_at, with_count, HasRow, Numbers, Sound};

use crate::{Join, Loop, Quota, Turn, ended};
use cellsums::{Part, Row};

fn put(own: &mut [u64], i: usize, v: u64)
    requires { i < length own.old }
    ensures { own.new ≡ set own.old i v }
{
    own[i] = v;
}

// One pair: the children lent for reading, then the join's own cells lent on to be written. The places come one by one, here and in
// walk_rows: t stays while l and r move, and a Turn has a count, which a row has not.
fn walk_pair(area: &mut [u64], join: Join, l: usize, r: usize, t: usize, q: Quota) -> Quota
    requires { Inside (length area.old) join [] l r t }
    ensures { state result area.new ≡ walk (cell_pairs join [] l r t) (state q area.old) }
{
    if q.over {
        return q;
    }
    if 0 < q.skip {
        return Quota {
            skip: q.skip - 1,
            ..q
        };
    }
    if q.budget == 0 {
        return q;
    }
    let x = cellsums::cell(&area[join.own.from..join.own.to], t);
    match cellsums::add_pair(area, join.left, join.right, l, r, x) {
        Some(v) => {
            put(&mut area[join.own.from..join.own.to], t, v);
            Quota {
                budget: q.budget - 1,
                ..q
            }
        }
        None => Quota { over: true, ..q },
    }
}

// The pairs of a cell one by one.
fn walk_rows(
    area: &mut [u64],
    join: Join,
    rows: &[Row],
    l: usize,
    r: usize,
    t: usize,
    q: Quota,
) -> Quota
    requires { Inside (length area.old) join rows.now l r t }
    ensures { state result area.new ≡ walk (cell_pairs join rows.now l r t) (state q area.old) }
{
    let [row, others @ ..] = rows else {
        return walk_pair(area, join, l, r, t, q);
    };
    let mut e = q;
    for j in 0..row.count {
        let k = row.count - 1 - j;
        e = walk_rows(
            area,
            join,
            others,
            l + j * row.left,
            r + k * row.right,
            t,
            e,
        );
        if ended(e.over, e.skip, e.budget) {
            break;
        }
    }
    e
}

// A quota anew, field by field: a copy of the whole takes the struct's padding along, through memory.
fn copied(q: Quota) -> Quota
    ensures { result ≡ q }
{
    Quota {
        skip: q.skip,
        budget: q.budget,
        over: q.over,
    }
}

// The same as walk_rows, over copies made field by field: what a call takes by address stays in memory, and the loop over the cells is to
// keep its own in registers. Without them a run of small cells took a sixth longer.
fn one_by_one(area: &mut [u64], join: Join, rows: &[Row], at: Turn, q: Quota) -> Quota
    requires { Inside (length area.old) join rows.now at.left at.right at.own }
    ensures { state result area.new ≡ walk (cell_pairs join rows.now at.left at.right at.own) (state q area.old) }
{
    let parts = Join {
        left: Part {
            from: join.left.from,
            to: join.left.to,
        },
        right: Part {
            from: join.right.from,
            to: join.right.to,
        },
        own: Part {
            from: join.own.from,
            to: join.own.to,
        },
    };
    copied(walk_rows(area, parts, rows, at.left, at.right, at.own, copied(q)))
}

// The pairs of a cell that the skip does not cover whole (walk_alone and walk_last pass over those): summed at once, or one by one where skip
// or budget ends among them or a sum does not fit.
#[inline(always)]
fn walk_cell(area: &mut [u64], join: Join, rows: &[Row], at: Turn, q: Quota) -> Quota
    requires inside { Inside (length area.old) join rows.now at.left at.right at.own }
    requires counted { at.count ≡ length (places rows.now at.left at.right) }
    ensures { state result area.new ≡ walk (cell_pairs join rows.now at.left at.right at.own) (state q area.old) }
{
    if q.over {
        return q;
    }
    if 0 < q.skip {
        return one_by_one(area, join, rows, at, q);
    }
    if q.budget < at.count {
        return one_by_one(area, join, rows, at, q);
    }
    let x = cellsums::cell(&area[join.own.from..join.own.to], at.own);
    match cellsums::cell_sum(area, join.left, join.right, rows, at.left, at.right, x) {
        Some(v) => {
            put(&mut area[join.own.from..join.own.to], at.own, v);
            Quota {
                budget: q.budget - at.count,
                ..q
            }
        }
        None => one_by_one(area, join, rows, at, q),
    }
}

// The cell of a join that has no loop, passed over by the number of its pairs, or walked. Apart, so that walk_cell is inlined once in the loop
// over the cells.
#[inline(never)]
fn walk_alone(area: &mut [u64], join: Join, rows: &[Row], at: Turn, q: Quota) -> Quota
    requires inside { Inside (length area.old) join rows.now at.left at.right at.own }
    requires counted { at.count ≡ length (places rows.now at.left at.right) }
    ensures { state result area.new ≡ walk (cell_pairs join rows.now at.left at.right at.own) (state q area.old) }
{
    if q.over {
        return q;
    }
    if at.count <= q.skip {
        return Quota {
            skip: q.skip - at.count,
            ..q
        };
    }
    walk_cell(area, join, rows, at, q)
}

// The pairs that a loop's row has; 0 where it has none.
fn count_in(rows: &[Row], row: Option<usize>) -> usize
    requires { HasRow row rows.now }
    ensures { with_count rows.now row result ≡ rows.now }
{
    match row {
        Some(p) => rows[p].count,
        None => 0,
    }
}

// Has a loop's row have n pairs, if there is one.
fn set_count(rows: &mut [Row], row: Option<usize>, n: usize)
    requires { HasRow row rows.old }
    ensures { rows.new ≡ with_count rows.old row n }
{
    if let Some(p) = row {
        rows[p].count = n;
    }
}

impl Loop {
    // The i-th turn, from where the loop begins.
    fn turn(self, at: Turn, i: usize) -> Turn
        requires turn_left { i < self.count }
        requires numbers { Numbers (turn_at self at.left at.right at.own at.count i) }
        ensures { result ≡ turn_at self at.left at.right at.own at.count i }
    {
        let count = match self.row {
            Some(_) => at.count * (i + 1),
            None => at.count,
        };
        Turn {
            left: at.left + i * self.left,
            right: at.right + i * self.right,
            own: at.own + i * self.own,
            count,
        }
    }
}

// The last loop: one cell a turn. The cells that the skip covers are passed over by the numbers of their pairs, in a loop of their own: when
// walk_cell did so, an advance by one pair in the midst of a run took up to 1.8 times as many instructions (m6). For the cells after them the
// row's count is written for each i, and restored. Beside walk_loops, since with a call of that for each cell a run of small cells took a
// sixth longer.
fn walk_last(
    area: &mut [u64],
    join: Join,
    last: Loop,
    rows: &mut [Row],
    at: Turn,
    q: Quota,
) -> Quota
    requires { Sound (length area.old) join (last ∷ []) rows.old at.left at.right at.own at.count }
    ensures { (state result area.new ≡ walk (loop_pairs join (last ∷ []) rows.old at.left at.right at.own) (state q area.old)) × (rows.new ≡ rows.old) }
{
    if q.over {
        return q;
    }
    let mut skip = q.skip;
    let mut first = 0;
    for j in 0..last.count {
        let turn = last.turn(at, j);
        if skip < turn.count {
            break;
        }
        skip -= turn.count;
        first = j + 1;
    }
    let mut e = Quota { skip, ..q };
    if first == last.count {
        return e;
    }
    let old = count_in(rows, last.row);
    for i in first..last.count {
        set_count(rows, last.row, i + 1);
        e = walk_cell(area, join, rows, last.turn(at, i), e);
        if ended(e.over, e.skip, e.budget) {
            break;
        }
    }
    set_count(rows, last.row, old);
    copied(e)
}

// A loop for each chain that is partial at the result. Its row's count is written for each i, and restored.
pub fn walk_loops(
    area: &mut [u64],
    join: Join,
    loops: &[Loop],
    rows: &mut [Row],
    at: Turn,
    q: Quota,
) -> Quota
    requires { Sound (length area.old) join loops.now rows.old at.left at.right at.own at.count }
    ensures { (state result area.new ≡ walk (loop_pairs join loops.now rows.old at.left at.right at.own) (state q area.old)) × (rows.new ≡ rows.old) }
{
    let [one, others @ ..] = loops else {
        return walk_alone(area, join, rows, at, q);
    };
    if others.is_empty() {
        return walk_last(area, join, *one, rows, at, q);
    }
    let old = count_in(rows, one.row);
    let mut e = q;
    for i in 0..one.count {
        set_count(rows, one.row, i + 1);
        e = walk_loops(area, join, others, rows, one.turn(at, i), e);
        if ended(e.over, e.skip, e.budget) {
            break;
        }
    }
    set_count(rows, one.row, old);
    e
}
