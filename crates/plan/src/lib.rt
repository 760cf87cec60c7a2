// The node table of a model under the windows of a run, and the plan call.
#![tactic(auto)]

mod arrays; // arrays.rt: a node's cells and strides
pub mod asking; // asking.rt: from a file and a chain to lower to a model, its windows and its table
pub mod coverage; // coverage.rt: a chain's coverage by counting, and what it makes of cells and pairs
mod nodes; // nodes.rt: one node of the table
mod rows; // rows.rt: one number a chain
pub mod tables; // tables.rt: the table, node by node
pub mod windows; // windows.rt: the windows of a run

ghost use Rattle.std.specs.Prelude.{◌≡◌, ℕ, ◌≤◌, get_or};
ghost use Rattle.calls.specs.Promises.{PlanAllows};

use crate::asking::prepare;
use calls::{Planned, Refusal};
use modelfile::Model;

// A chain's coverage at a node.
#[derive(Clone, Copy)]
pub enum Cover {
    Finished,
    Partial,
    Absent,
}

// The chains of a run: how many, how many centres each has in all, and their windows. Entries past the number of chains are unused. Two
// arrays over eight chains side by side, since they come as they are from the table's and the model's rows.
#[derive(Clone, Copy)]
pub struct Chains {
    pub count: usize,
    pub totals: [usize; 8],
    pub windows: [usize; 8],
    pub ghost chains_few: { count ≤ 8 },
    pub ghost window_range: { (k : ℕ) → get_or windows k 0 ≤ 15 },
}

impl Chains {
    pub fn new(count: usize, totals: [usize; 8], windows: [usize; 8]) -> Self
        requires few { (count ≤ 8) × ((k : ℕ) → get_or windows k 0 ≤ 15) }
        ensures { (few : count ≤ 8) (low : (k : ℕ) → get_or windows k 0 ≤ 15) → result ≡ record { count = count; totals = totals; windows = windows; chains_few = few; window_range = low } }
    {
        Chains {
            count,
            totals,
            windows,
        }
    }
}

// What the coverage at a node makes of its array: how many cells, and each chain's stride.
#[derive(Clone, Copy)]
pub struct Shape {
    pub cells: usize,
    pub strides: [usize; 8],
}

#[derive(Clone, Copy)]
pub struct Node {
    // a leaf's centre; 0 for a join is the model's own number of that node, handed through (specs/Table `entry`)
    pub centre: usize,
    // how many nodes its subtree has
    pub span: usize,
    // how many of each chain's centres lie under it
    pub counts: [usize; 8],
    // where its cells begin in the area, how many there are, and how far each chain's index reaches
    pub base: usize,
    pub cells: usize,
    pub strides: [usize; 8],
    // a join's own pairs; 0 for a leaf, which has none (specs/Table `pairs_at`)
    pub pairs: u64,
}

// A model's nodes in postorder. Fixed memory, with no heap: 31 nodes, and how many of them are used.
#[derive(Clone, Copy)]
pub struct Table {
    pub nodes: [Node; 31],
    pub count: usize,
    // each chain's centres in all
    pub totals: [usize; 8],
    pub cells: usize,
    pub pairs: u64,
}

// A model of an accepted file, the windows of a run of it, and their table. That all this holds (Ready) stays a clause: a ghost field holds
// a proposition, and Guaranteed has a witness (a chain's centre) and a permutation (tried: "nothing proves IsProp").
#[derive(Clone, Copy)]
pub struct Run {
    pub model: Model,
    pub windows: [usize; 8],
    pub table: Table,
}

// "Plan returns cells and pairs." The chain to lower is a number, 0 for none, as document 01 and the calls for C have it.
pub fn plan(file: &[u8], lower: u64) -> Result<Planned, Refusal>
    ensures { PlanAllows file.now lower result }
{
    let run = prepare(file, lower)?;
    Ok(Planned {
        cells: run.table.cells as u64,
        pairs: run.table.pairs,
    })
}
