// What is held against the second opinion: which models, and whether what the calls tell of them is what is due. The program `compare` makes the calls.
#![tactic(auto)]

pub mod answers; // answers.rt: runs and sheets, and whether they are as due
pub mod lines; // lines.rt: the lines of the scope document
pub mod shapes; // shapes.rt: what models are drawn from
pub mod tally; // tally.rt: what is counted
