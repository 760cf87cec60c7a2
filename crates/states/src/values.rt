// The values due for a model.
use crate::model::{CHAINS, Model};
use crate::odometer::value;
use crate::table::{LeftOut, Table};

const RUNS: usize = CHAINS + 1;

// Of the whole model, then with each chain lowered: None for 2^64 or more, and 0 where the chain has no messages: document
// 01's numerator of such a chain, which is told as it is.
pub type Due = [Option<u64>; RUNS];

pub fn find_values(table: &mut Table, model: &Model) -> Result<Due, LeftOut> {
    table.fill(model)?;
    let mut due = [Some(0); RUNS];
    for (lower, value_due) in due.iter_mut().enumerate() {
        if let Some(lowered) = model.lowered(lower) {
            *value_due = value(table, &lowered)?;
        }
    }
    Ok(due)
}
