// The second opinion of the crate `states` held against plans, runs and sheets: the lines of the scope document first, then models drawn by chance.
#![tactic(auto)]

mod areas; // areas.rt: B's area, pair by pair
mod told; // told.rt: what the calls tell

use judge::answers::{is_cleared, sheet_due};
use judge::lines::LINES;
use judge::shapes::shapes;
use judge::tally::{Count, Tally};
use states::draws::{Draws, Shape};
use states::edges::both_sides;
use states::files::{Tree, file_of};
use states::model::Model;
use states::table::Table;
use states::values::{Due, find_values};
use std::io;
use told::{Call, FOREIGN};

// The models drawn of each shape, two by two where they come by two.
const DRAWN: usize = 80;

// A model with what is due. The lines of the scope document are told.
#[derive(Clone, Copy)]
struct Case<'a> {
    model: &'a Model,
    due: Due,
    // a flag, since all else is the same for lines and drawn models
    is_line: bool,
}

// Room for the second opinion, and for the calls with one cell past what any run needs, both lent: 200 KB handed out by a function are copied.
// What is counted, for one shape and in all.
#[derive(Drop)]
struct Comparison<'a> {
    table: &'a mut Table,
    area: &'a mut [u64; 8193],
    tally: Tally,
    total: Tally,
}

impl<'a> Comparison<'a> {
    fn new(table: &'a mut Table, area: &'a mut [u64; 8193]) -> Comparison<'a> {
        Comparison {
            table,
            area,
            tally: Tally::new(),
            total: Tally::new(),
        }
    }

    // Each run in one slot and in four.
    fn hold_runs(&mut self, rt: &impl Print, case: &Case, file: &[u8]) -> io::Result<()> {
        for lower in 0..=case.model.chain_count {
            let due = case.due[lower];
            let call = Call {
                file,
                lower: lower as u64,
            };
            let in_four = call.run(4, self.area);
            self.tally.hold(Count::Runs, in_four.is_due(due));
            let at_once = call.run(1, self.area);
            self.tally.hold(Count::Runs, at_once.is_due(due));
            if case.is_line {
                at_once.tell(rt, lower, due)?;
            }
        }
        Ok(())
    }

    // The sheet, which clears the model's cells and leaves the one past them.
    fn hold_sheet(&mut self, case: &Case, file: &[u8]) {
        let plan = Call { file, lower: 0 }.planned();
        told::mark(self.area, plan.cells);
        let sheet = ratesheet::sheet(file, self.area);
        let agrees = sheet == sheet_due(case.model, &case.due, plan)
            && is_cleared(self.area, plan.cells, FOREIGN);
        self.tally.hold(Count::Trees, agrees);
    }

    // What is due, if the model is not left out.
    fn hold(
        &mut self,
        rt: &impl Print,
        model: &Model,
        trees: &[Tree],
        is_line: bool,
    ) -> io::Result<Option<Due>> {
        let Ok(due) = find_values(self.table, model) else {
            return Ok(None);
        };
        self.tally.count_values(&due);
        let case = Case {
            model,
            due,
            is_line,
        };
        for tree in trees {
            let file = file_of(model, *tree);
            self.hold_runs(rt, &case, file.as_slice())?;
            self.hold_sheet(&case, file.as_slice());
        }
        self.tally.count(Count::Models);
        Ok(Some(due))
    }

    // Two models on both sides of 2^64.
    fn hold_two(&mut self, rt: &impl Print, model: &Model, trees: &[Tree]) -> io::Result<()> {
        let [below, above] = both_sides(self.table, model);
        let below = self.hold(rt, &below, trees, false)?;
        let above = self.hold(rt, &above, trees, false)?;
        let is_below = below.is_some_and(|due| due[0].is_some());
        if is_below && above.is_some_and(|due| due[0].is_none()) {
            self.tally.count(Count::Edges);
        }
        Ok(())
    }

    // Models drawn by chance. One centre has one tree.
    fn hold_shape(&mut self, rt: &impl Print, shape: &Shape) -> io::Result<()> {
        let mut draws = Draws::new();
        let times = if shape.edges { DRAWN / 2 } else { DRAWN };
        for _ in 0..times {
            let (model, chance) = draws.model(shape);
            let trees = Tree::tried(chance);
            let count = if model.centres == 1 { 1 } else { trees.len() };
            if shape.edges {
                self.hold_two(rt, &model, &trees[..count])?;
            } else {
                self.hold(rt, &model, &trees[..count], false)?;
            }
        }
        Ok(())
    }

    // Counts anew, with what was counted in the total.
    fn end_tally(&mut self) {
        let tally = self.tally;
        self.total.add(&tally);
        self.tally = Tally::new();
    }
}

fn main(rt: HostRuntime) -> io::Result<()> {
    areas::tell_b(&rt)?;
    let mut table = Table::new();
    let mut area = [7; 8193];
    let mut comparison = Comparison::new(&mut table, &mut area);
    for line in &LINES {
        print!(&rt; "{:.<52}", line.name)?;
        comparison.hold(
            &rt,
            &line.given.model(),
            &[Tree::in_order(line.first)],
            true,
        )?;
        println!(&rt;
            "\n  differences {}",
            comparison.tally.counted(Count::Differences)
        )?;
        comparison.end_tally();
    }
    for (name, shape) in &shapes() {
        print!(&rt; "{name:30}")?;
        comparison.hold_shape(&rt, shape)?;
        println!(&rt; "{}", comparison.tally)?;
        comparison.end_tally();
    }
    println!(&rt; "models trees runs values large below edges differences:")?;
    println!(&rt; "all shapes and lines{}", comparison.total)
}
