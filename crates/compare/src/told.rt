// What plan, start and advance tell of a file.
use calls::Planned;
use judge::answers::{Run, Told, budget};
use runs::advance::advance;

// What stands in the cell past the model's.
pub const FOREIGN: u64 = 7777;

pub fn mark(area: &mut [u64], cells: u64) {
    if let Some(past) = area.get_mut(cells as usize) {
        *past = FOREIGN;
    }
}

// A file and the chain to lower, 0 for none.
#[derive(Clone, Copy)]
pub struct Call<'a> {
    pub file: &'a [u8],
    pub lower: u64,
}

impl Call<'_> {
    pub fn planned(self) -> Planned {
        plan::plan(self.file, self.lower).unwrap_or(Planned { cells: 0, pairs: 0 })
    }

    // A start, then so many slots of one budget.
    fn in_slots(self, budget: u64, slots: u64, area: &mut [u64]) -> Told {
        let mut told = Told {
            done: 0,
            value: runs::start(self.file, self.lower, area).map(|()| 0),
        };
        if told.value.is_err() {
            return told;
        }
        for _ in 0..slots {
            told = Told::from(advance(self.file, self.lower, told.done, budget, area));
        }
        told
    }

    // A run to the last pair, in one slot or in four.
    pub fn run(self, slots: u64, area: &mut [u64]) -> Run {
        let plan = self.planned();
        mark(area, plan.cells);
        let told = self.in_slots(budget(plan.pairs, slots), slots, area);
        Run {
            plan,
            told,
            kept: area.get(plan.cells as usize) == Some(&FOREIGN),
        }
    }
}
