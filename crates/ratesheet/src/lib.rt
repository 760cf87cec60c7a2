// The sheet call: the full model's value, then each chain lowered in turn, over one area that is 0 afterwards.
#![tactic(auto)]

ghost use Rattle.std.specs.Prelude.{◌≡◌, ◌≤◌, length};
ghost use Rattle.modelfile.specs.Network.{windows_of};
ghost use Rattle.calls.specs.Asked.{cells_in};
ghost use Rattle.calls.specs.Sheet.{sheet_in, sheet_of};
ghost use Rattle.calls.specs.Promises.{SheetAllows};
ghost use Rattle.rates.specs.Steps.{Kept};
ghost use Rattle.ratesheet.specs.Steps.{Full};

use busiest::busiest;
use calls::{Refusal, Sheet};
use fills::clear;
use plan::Run;
use plan::asking::prepare;
use rates::numerators;
use runs::no_room;
use runs::whole::run_value;

// The runs of a full model.
fn run_all(run: &Run, area: &mut [u64]) -> Result<Sheet, Refusal>
    requires full { Full run.now }
    requires room { cells_in run.now.model (windows_of run.now.model) ≤ length area.old }
    ensures answer { result ≡ sheet_of run.now.model }
    ensures kept { Kept (cells_in run.now.model (windows_of run.now.model)) area.old area.new }
{
    let value = run_value(run, area).ok_or(Refusal::TooLarge)?;
    let numerators = numerators(&run.model, area).ok_or(Refusal::LoweredTooLarge)?;
    Ok(Sheet {
        value,
        pairs: run.table.pairs,
        cells: run.table.cells as u64,
        chains: run.model.chains as u64,
        numerators,
        busiest: busiest(run.model) as u64,
    })
}

fn run_and_clear(run: &Run, area: &mut [u64]) -> Result<Sheet, Refusal>
    requires full { Full run.now }
    ensures answer { result ≡ (sheet_in run.now.model (windows_of run.now.model) area.old).answer }
    ensures left { area.new ≡ (sheet_in run.now.model (windows_of run.now.model) area.old).area }
{
    let cells = run.table.cells;
    if no_room(cells, area.len()) {
        return Err(Refusal::NoRoom);
    }
    let answer = run_all(run, area);
    clear(&mut area[..cells]);
    answer
}

// "Afterwards the full model's cells are all 0." Cells past them are never written.
pub fn sheet(file: &[u8], area: &mut [u64]) -> Result<Sheet, Refusal>
    ensures { SheetAllows file.now area.old result area.new }
{
    let run = prepare(file, 0)?;
    run_and_clear(&run, area)
}
