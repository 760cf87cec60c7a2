// What plan, start and advance have in common: a file and a chain to lower are refused with 1 to 11, or give a run.
ghost use Rattle.std.specs.Prelude.{◌≡◌};
ghost use Rattle.modelfile.proofs.Guaranteed.{Guaranteed};
ghost use Rattle.calls.specs.Asked.{lowering, ask};
ghost use Rattle.plan.specs.Asking.{Ready, RunFor, chains_of};

use crate::tables::make_table;
use crate::windows::lowered;
use crate::{Chains, Run};
use calls::Refusal;
use modelfile::Model;

impl Run {
    pub fn chains(&self) -> Chains
        requires { Ready self.now }
        ensures { (p : Ready self.now) → chains_of p ≡ result }
    {
        Chains::new(self.model.chains, self.table.totals, self.windows)
    }
}

// That the model is Guaranteed stays a clause, for the reason at Run (lib.rt). This and `prepare` are inlined, so that a run is made where the call
// keeps it: handed on behind a Result it is copied, 7 KB each time.
#[inline(always)]
pub fn run_of(m: Model, lower: u64) -> Result<Run, Refusal>
    requires { Guaranteed m }
    ensures { RunFor (lowering m lower) result }
{
    let windows = lowered(m, lower)?;
    let table = make_table(m, windows);
    Ok(Run {
        model: m,
        windows,
        table,
    })
}

#[inline(always)]
pub fn prepare(file: &[u8], lower: u64) -> Result<Run, Refusal>
    ensures { RunFor (ask file.now lower) result }
{
    let reading = reader::read_file(file);
    reading.verdict?;
    run_of(reading.model, lower)
}
