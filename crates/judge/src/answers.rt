// What a run and a sheet tell, and whether it is what is due.
ghost use Rattle.std.specs.Prelude.{◌≡◌, ◌≢◌, ◌*◌, ◌<◌, ◌↔◌, IsTrue, IfErr, None, get_or};
ghost use Rattle.judge.specs.Due.{IsCleared, Tells, refusal_due, told_of};

use calls::{Advanced, Halted, Planned, Refusal, Sheet};
use states::model::Model;
use states::values::Due;
use std::io;

// The number done, and the value or the refusal.
#[derive(Clone, Copy, PartialEq)]
pub struct Told {
    pub done: u64,
    pub value: Result<u64, Refusal>,
}

// What an advance tells. A refusal has done nothing.
impl From<Result<Advanced, Halted>> for Told {
    ghost from_gives = { λ answer result. result ≡ told_of answer };

    fn from(answer: Result<Advanced, Halted>) -> Told {
        match answer {
            Ok(Advanced { done, value }) => Told {
                done,
                value: Ok(value),
            },
            Err(Halted::Stopped { done }) => Told {
                done,
                value: Err(Refusal::TooLarge),
            },
            Err(Halted::Refused(refusal)) => Told {
                done: 0,
                value: Err(refusal),
            },
        }
    }
}

// A plan, what a run by it tells in the end, and whether the cell past the model's was left.
#[derive(Clone, Copy)]
pub struct Run {
    pub plan: Planned,
    pub told: Told,
    pub kept: bool,
}

impl Run {
    // Where the chain to lower has window 0, the value due is 0.
    pub fn is_due(self, due: Option<u64>) -> bool
        ensures { IsTrue result ↔ (IsTrue self.kept × Tells self due) }
    {
        let told = self.told;
        self.kept
            && match due {
                None => told.value == Err(Refusal::TooLarge),
                Some(0) => told.value == Err(Refusal::WindowZero),
                Some(value) => {
                    told == Told {
                        done: self.plan.pairs,
                        value: Ok(value),
                    }
                }
            }
    }

    // printed here, and not by Display, since what is due stands in the line too
    pub fn tell(self, rt: &impl Print, lower: usize, due: Option<u64>) -> io::Result<()> {
        let Planned { pairs, cells } = self.plan;
        print!(rt; "\n  lowered {lower}: pairs {pairs} cells {cells} states")?;
        match due {
            None => print!(rt; " 2^64 or more")?,
            Some(value) => print!(rt; " {value}")?,
        }
        let value = self.told.value.unwrap_or(0);
        let refusal = self.told.value.err().map_or(0, |refusal| refusal.number());
        print!(rt; " run {value} done {} refused {refusal}", self.told.done)
    }
}

// With these budgets so many slots reach the last pair. The slots are a number, since the contract names 4.
pub fn budget(pairs: u64, slots: u64) -> u64
    ensures four { slots ≡ 4 → pairs < 4 * result }
    ensures other { slots ≢ 4 → result ≡ pairs }
{
    if slots == 4 { pairs / 4 + 1 } else { pairs }
}

// Whether the model's cells are 0 and the one past them is as it was.
pub fn is_cleared(area: &[u64], cells: u64, foreign: u64) -> bool
    ensures { IsTrue result ↔ IsCleared area.now cells foreign }
{
    match area.split_at_checked(cells as usize) {
        Some((model, [past, ..])) => *past == foreign && model.iter().all(|cell| *cell == 0),
        _ => false,
    }
}

// The sheet due, if no value is 2^64 or more. Past the chains the values due are 0, as the numerators are.
fn accepted(model: &Model, due: &Due, plan: Planned) -> Option<Sheet> {
    let mut numerators = [0; 8];
    for (numerator, value) in numerators.iter_mut().zip(&due[1..]) {
        *numerator = (*value)?;
    }
    Some(Sheet {
        value: due[0]?,
        pairs: plan.pairs,
        cells: plan.cells,
        chains: model.chain_count as u64,
        numerators,
        busiest: model.busiest(),
    })
}

// What is due where some value is 2^64 or more.
fn refusal_due(whole: Option<u64>) -> Refusal
    ensures { result ≡ refusal_due whole }
{
    match whole {
        None => Refusal::TooLarge,
        Some(_) => Refusal::LoweredTooLarge,
    }
}

pub fn sheet_due(model: &Model, due: &Due, plan: Planned) -> Result<Sheet, Refusal>
    ensures { IfErr result (λ r. r ≡ refusal_due (get_or due.now 0 None)) }
{
    accepted(model, due, plan).ok_or(refusal_due(due[0]))
}
