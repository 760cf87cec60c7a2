// The calls that run over an area: start and advance.
#![tactic(auto)]

pub mod advance; // advance.rt: the advance call
pub mod whole; // whole.rt: a whole run in one call

ghost use Rattle.std.specs.Prelude.{◌≡◌, ◌||◌, ◌-◌, ◌≤◌, ltb, length, get_or};
ghost use Rattle.calls.specs.Start.{start_in};
ghost use Rattle.calls.specs.Promises.{StartAllows};
ghost use Rattle.plan.specs.Asking.{Ready, windows_of_run};

use calls::Refusal;
use fills::{fill, some_leaf_too_large};
use plan::Run;
use plan::asking::prepare;

// 12: "cells above 8192 or above the area's length".
pub fn no_room(cells: usize, length: usize) -> bool
    ensures { result ≡ (ltb 8192 cells || ltb length cells) }
{
    8192 < cells || length < cells
}

// "The model's last cell."
pub fn last_cell(area: &[u64], cells: usize) -> u64
    requires { (1 ≤ cells) × (cells ≤ length area.now) }
    ensures { result ≡ get_or area.now (cells - 1) 0 }
{
    area[cells - 1]
}

fn start_in(run: &Run, area: &mut [u64]) -> Result<(), Refusal>
    requires { Ready run.now }
    ensures answer { result ≡ (start_in run.now.model (windows_of_run run.now) area.old).answer }
    ensures left { area.new ≡ (start_in run.now.model (windows_of_run run.now) area.old).area }
{
    if no_room(run.table.cells, area.len()) {
        return Err(Refusal::NoRoom);
    }
    if some_leaf_too_large(run) {
        return Err(Refusal::TooLarge);
    }
    fill(run, area);
    Ok(())
}

// "A start writes each leaf's weights and sets every cell of a join to 0"; what it refuses it leaves untouched.
pub fn start(file: &[u8], lower: u64, area: &mut [u64]) -> Result<(), Refusal>
    ensures { StartAllows file.now lower area.old result area.new }
{
    let run = prepare(file, lower)?;
    start_in(&run, area)
}
