// Two models on both sides of 2^64, which differ by 1 in the load of chain 1 at its home.
use crate::model::Model;
use crate::odometer::value;
use crate::table::Table;

fn with_load(model: &Model, load: u16) -> Model {
    let mut model = *model;
    model.loads[model.chains[0].home][0] = load;
    model
}

fn is_below(table: &mut Table, model: &Model) -> bool {
    table.fill(model).is_ok() && matches!(value(table, model), Ok(Some(_)))
}

// The last load up to 65535 with a value below 2^64, by its binary digits from the highest on; 0 if there is none.
// An Option is no plainer: the digits grow from 0, and the caller raises 0 to 1.
fn last_below(table: &mut Table, model: &Model) -> u16 {
    let mut load = 0;
    for j in 0u32..16 {
        let more = load | 32768 >> j;
        if is_below(table, &with_load(model, more)) {
            load = more;
        }
    }
    load
}

// The first has the last load below 2^64, the second one more, as far as there are such.
pub fn both_sides(table: &mut Table, model: &Model) -> [Model; 2] {
    let load = last_below(table, model).clamp(1, 65534);
    [with_load(model, load), with_load(model, load + 1)]
}
