// The calls for C and Rust: each answer as a struct of numbers, in the order of include/fenmantle.h.
#![tactic(auto)]

ghost use Rattle.calls.specs.Promises.{BoardPlanAllows, BoardStartAllows, BoardAdvanceAllows, BoardSheetAllows, BoardPartAllows};

use calls::{AdvanceNumbers, PartNumbers, PlanNumbers, SheetNumbers, StartNumbers};

#[unsafe(no_mangle)]
pub extern "C" fn fenmantle_plan(file: &[u8], lower: u64) -> PlanNumbers
    ensures { BoardPlanAllows file.now lower result }
{
    PlanNumbers::from(plan::plan(file, lower))
}

#[unsafe(no_mangle)]
pub extern "C" fn fenmantle_start(file: &[u8], lower: u64, area: &mut [u64]) -> StartNumbers
    ensures { BoardStartAllows file.now lower area.old result area.new }
{
    StartNumbers::from(runs::start(file, lower, area))
}

#[unsafe(no_mangle)]
pub extern "C" fn fenmantle_advance(
    file: &[u8],
    lower: u64,
    done: u64,
    budget: u64,
    area: &mut [u64],
) -> AdvanceNumbers
    ensures { BoardAdvanceAllows file.now lower done budget area.old result area.new }
{
    AdvanceNumbers::from(runs::advance::advance(file, lower, done, budget, area))
}

#[unsafe(no_mangle)]
pub extern "C" fn fenmantle_sheet(file: &[u8], area: &mut [u64]) -> SheetNumbers
    ensures { BoardSheetAllows file.now area.old result area.new }
{
    SheetNumbers::from(ratesheet::sheet(file, area))
}

// Where the tree part stands in the file, whose last byte is the end record: 0 and 0 where it is empty.
#[unsafe(no_mangle)]
pub extern "C" fn fenmantle_tree_part(file: &[u8]) -> PartNumbers
    ensures { BoardPartAllows file.now result }
{
    let part = reader::tree_part(file);
    let length = part.len();
    if length == 0 {
        return PartNumbers { from: 0, length: 0 };
    }
    let from = file.len() - 1 - length;
    PartNumbers {
        from: from as u64,
        length: length as u64,
    }
}
