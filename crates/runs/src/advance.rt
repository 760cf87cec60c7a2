// The advance call: the listed pairs after those done, as many as the budget has.
ghost use Rattle.std.specs.Prelude.{◌≡◌, ◌-◌, ◌≤◌, eqb, length, get_or};
ghost use Rattle.sums.specs.Choice.{choose};
ghost use Rattle.calls.specs.Advance.{advance_in};
ghost use Rattle.calls.specs.Promises.{AdvanceAllows};
ghost use Rattle.plan.specs.Asking.{Ready, windows_of_run};

use crate::{last_cell, no_room};
use calls::{Advanced, Halted, Refusal};
use joins::Quota;
use plan::asking::prepare;
use plan::{Run, Table};

// The value, once all pairs are done.
fn value_at(area: &[u64], t: &Table, done: u64) -> u64
    requires { (1 ≤ t.now.cells) × (t.now.cells ≤ length area.now) }
    ensures { result ≡ choose (eqb done t.now.pairs) (λ u. get_or area.now (t.now.cells - 1) 0) (λ u. 0) }
{
    if done == t.pairs {
        last_cell(area, t.cells)
    } else {
        0
    }
}

fn advance_in(run: &Run, done: u64, budget: u64, area: &mut [u64]) -> Result<Advanced, Halted>
    requires { Ready run.now }
    ensures answer { result ≡ (advance_in run.now.model (windows_of_run run.now) done budget area.old).answer }
    ensures left { area.new ≡ (advance_in run.now.model (windows_of_run run.now) done budget area.old).area }
{
    if no_room(run.table.cells, area.len()) {
        return Err(Halted::Refused(Refusal::NoRoom));
    }
    if run.table.pairs < done {
        return Err(Halted::Refused(Refusal::PastTotal));
    }
    let all = Quota {
        skip: done as usize,
        budget: budget as usize,
        over: false,
    };
    let left = spends::spend(run, area, all);
    let after = done + (budget - left.budget as u64);
    if left.over {
        return Err(Halted::Stopped { done: after });
    }
    Ok(Advanced {
        done: after,
        value: value_at(area, &run.table, after),
    })
}

// "It adds pairs to whatever the area holds"; what it refuses it leaves untouched. The file, the chain and the area come
// one by one, as the calls for C have them.
pub fn advance(
    file: &[u8],
    lower: u64,
    done: u64,
    budget: u64,
    area: &mut [u64],
) -> Result<Advanced, Halted>
    ensures { AdvanceAllows file.now lower done budget area.old result area.new }
{
    let run = prepare(file, lower)?;
    advance_in(&run, done, budget, area)
}
