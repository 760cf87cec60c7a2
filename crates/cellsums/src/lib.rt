// The sum over the pairs of one result cell, over any number of shared chains. Nothing is written: the area is lent for reading, each
// child's cells as a part of it, one child at a time.
#![tactic(auto)]

ghost use Rattle.std.specs.Prelude.{◌≡◌, [], ◌∷◌, ◌+◌, ◌≤◌, ◌<◌, length, get_or};
ghost use Rattle.sums.specs.Sums.{sum_over};
ghost use Rattle.arith.specs.Capped.{capped};
ghost use Rattle.cellsums.specs.Places.{places, product, rows_in, Within};

// A node's cells in the area. A left and a right part come side by side: the definitions (Within, product, places) speak of each alone, and so
// of the places l and r; joins' Join holds both parts beside its own.
#[derive(Clone, Copy)]
pub struct Part {
    pub from: usize,
    pub to: usize,
}

// A shared chain at a result index i: i + 1 pairs, and how far apart they lie in the left child and in the right one.
#[derive(Clone, Copy)]
pub struct Row {
    pub count: usize,
    pub left: usize,
    pub right: usize,
}

pub fn cell(cells: &[u64], i: usize) -> u64
    requires { i < length cells.now }
    ensures { result ≡ get_or cells.now i 0 }
{
    cells[i]
}

pub fn add_pair(area: &[u64], left: Part, right: Part, l: usize, r: usize, acc: u64) -> Option<u64>
    requires { Within (length area.now) left right [] l r }
    ensures { result ≡ capped (acc + sum_over (places [] l r) (product area.now left right)) }
{
    let x = cell(&area[left.from..left.to], l);
    let y = cell(&area[right.from..right.to], r);
    arith::mul_add(acc, x, y)
}

// Inlined into add_two_rows, where most of the work is done: with a call for each row dense models took a sixth longer.
#[inline(always)]
pub fn add_row(
    area: &[u64],
    left: Part,
    right: Part,
    row: Row,
    l: usize,
    r: usize,
    acc: u64,
) -> Option<u64>
    requires { Within (length area.now) left right (row ∷ []) l r }
    ensures { result ≡ capped (acc + sum_over (places (row ∷ []) l r) (product area.now left right)) }
{
    let mut sum = acc;
    for j in 0..row.count {
        let k = row.count - 1 - j;
        sum = add_pair(area, left, right, l + j * row.left, r + k * row.right, sum)?;
    }
    Some(sum)
}

// Two rows with no call between their loops, for the reason measured at add_row.
pub fn add_two_rows(
    area: &[u64],
    left: Part,
    right: Part,
    row: Row,
    last: Row,
    l: usize,
    r: usize,
    acc: u64,
) -> Option<u64>
    requires { Within (length area.now) left right (row ∷ last ∷ []) l r }
    ensures { result ≡ capped (acc + sum_over (places (row ∷ last ∷ []) l r) (product area.now left right)) }
{
    let mut sum = acc;
    for j in 0..row.count {
        let k = row.count - 1 - j;
        sum = add_row(
            area,
            left,
            right,
            last,
            l + j * row.left,
            r + k * row.right,
            sum,
        )?;
    }
    Some(sum)
}

// Any number of rows. The two parts are passed as two: a join holds them beside its own, and the definitions speak of each.
pub fn add_rows(
    area: &[u64],
    left: Part,
    right: Part,
    rows: &[Row],
    l: usize,
    r: usize,
    acc: u64,
) -> Option<u64>
    requires { Within (length area.now) left right rows.now l r }
    ensures { result ≡ capped (acc + sum_over (places rows.now l r) (product area.now left right)) }
{
    let [row, others @ ..] = rows else {
        return add_pair(area, left, right, l, r, acc);
    };
    if let [last] = others {
        return add_two_rows(area, left, right, *row, *last, l, r, acc);
    }
    let mut sum = acc;
    for j in 0..row.count {
        let k = row.count - 1 - j;
        sum = add_rows(
            area,
            left,
            right,
            others,
            l + j * row.left,
            r + k * row.right,
            sum,
        )?;
    }
    Some(sum)
}

// The same, with no call where a cell has one shared chain or none.
#[inline(always)]
pub fn cell_sum(
    area: &[u64],
    left: Part,
    right: Part,
    rows: &[Row],
    l: usize,
    r: usize,
    acc: u64,
) -> Option<u64>
    requires { Within (length area.now) left right rows.now l r }
    ensures { result ≡ capped (acc + sum_over (places rows.now l r) (product area.now left right)) }
{
    match rows {
        [] => add_pair(area, left, right, l, r, acc),
        [row] => add_row(area, left, right, *row, l, r, acc),
        _ => add_rows(area, left, right, rows, l, r, acc),
    }
}

// The same, of rows written as numbers, three a row. It stands for what `cell_sum` took before it took rows; the joins have rows at hand.
pub fn flat_sum(
    area: &[u64],
    left: Part,
    right: Part,
    rows: &[usize],
    l: usize,
    r: usize,
    acc: u64,
) -> Option<u64>
    requires { Within (length area.now) left right (rows_in rows.now) l r }
    ensures { result ≡ capped (acc + sum_over (places (rows_in rows.now) l r) (product area.now left right)) }
{
    let [count, to_left, to_right, others @ ..] = rows else {
        return add_pair(area, left, right, l, r, acc);
    };
    let row = Row {
        count: *count,
        left: *to_left,
        right: *to_right,
    };
    let mut sum = acc;
    for j in 0..row.count {
        let k = row.count - 1 - j;
        sum = flat_sum(
            area,
            left,
            right,
            others,
            l + j * row.left,
            r + k * row.right,
            sum,
        )?;
    }
    Some(sum)
}
