// A whole run in one call: the value of a model under the windows of a run, if it is not too large.
ghost use Rattle.std.specs.Prelude.{◌≡◌, ℕ, ◌≤◌, length, get_or, take, drop};
ghost use Rattle.network.specs.States.{value};
ghost use Rattle.modelfile.specs.Network.{centres_of};
ghost use Rattle.modelfile.proofs.Guaranteed.{Guaranteed};
ghost use Rattle.calls.specs.Asked.{cells_in};
ghost use Rattle.arith.specs.Capped.{capped};
ghost use Rattle.plan.specs.Asking.{Ready, windows_of_run, RoomFor};

use crate::last_cell;
use fills::{fill, some_leaf_too_large};
use joins::Quota;
use modelfile::Model;
use plan::Run;
use plan::tables::make_table;
use spends::spend;

// The cells past the model's stay as they are.
pub fn run_value(run: &Run, area: &mut [u64]) -> Option<u64>
    requires ready { Ready run.now }
    requires room { RoomFor run.now (length area.old) }
    ensures value { result ≡ capped (value (centres_of run.now.model) (windows_of_run run.now)) }
    ensures long { length area.new ≡ length area.old }
    ensures past { drop (cells_in run.now.model (windows_of_run run.now)) area.new ≡ drop (cells_in run.now.model (windows_of_run run.now)) area.old }
{
    if some_leaf_too_large(run) {
        return None;
    }
    fill(run, area);
    let all = Quota {
        skip: 0,
        budget: run.table.pairs as usize,
        over: false,
    };
    let left = spend(run, area, all);
    if left.over {
        return None;
    }
    Some(last_cell(area, run.table.cells))
}

// The same, where there is no table yet: docs/MAP.md names it for the value, with these clauses.
pub fn whole_value(m: Model, windows: [usize; 8], area: &mut [u64]) -> Option<u64>
    requires guaranteed { Guaranteed m × (length windows ≡ 8) × ((k : ℕ) → get_or windows k 0 ≤ 15) }
    requires room { cells_in m (take m.chains windows) ≤ length area.old }
    ensures value { result ≡ capped (value (centres_of m) (take m.chains windows)) }
    ensures rest_kept { (length area.new ≡ length area.old) × (drop (cells_in m (take m.chains windows)) area.new ≡ drop (cells_in m (take m.chains windows)) area.old) }
{
    let table = make_table(m, windows);
    let run = Run {
        model: m,
        windows,
        table,
    };
    run_value(&run, area)
}
