// The models of the scope document's "Numbers on each side", whole and with each chain lowered: runs in slots of many budgets, runs that
// begin at each number done, and runs in areas of each length. Told are the number done and the value after each slot, and the cells at the
// end. What is expected was written by another reading of the scope document (tools/reference.py).
#![tactic(auto)]

use calls::{Advanced, Halted, Refusal};
use std::io;

struct Model {
    name: &'static str,
    file: &'static [u8],
}

const MODELS: [Model; 13] = [
    Model {
        name: "B",
        file: b"\x01\x03\x02\x02\x01\x01\x02\x02\x01\x03\x01\x01\x00\x01\x03\x01\x02\x00\x02\x03\x02\x01\x00\x03\x03\x03\x02\x00\x01\x04\x01\x04\x02\x05\x04\x03\x05\x06",
    },
    Model {
        name: "other",
        file: b"\x01\x03\x02\x02\x01\x01\x02\x02\x01\x03\x01\x01\x00\x01\x03\x01\x02\x00\x02\x03\x02\x01\x00\x03\x03\x03\x02\x00\x01\x04\x02\x04\x03\x05\x04\x01\x05\x06",
    },
    Model {
        name: "once",
        file: b"\x01\x02\x01\x02\x01\x03\x03\x01\x01\x00\x05\x04\x01\x04\x02\x05\x06",
    },
    Model {
        name: "two",
        file: b"\x01\x02\x01\x02\x01\x02\x03\x01\x01\x00\x01\x03\x02\x01\x00\x02\x04\x01\x04\x02\x05\x06",
    },
    Model {
        name: "wide",
        file: b"\x01\x02\x01\x02\x01\x04\x03\x01\x01\xff\xff\x03\x02\x01\x00\x01\x04\x01\x04\x02\x05\x06",
    },
    Model {
        name: "wider",
        file: b"\x01\x02\x01\x02\x01\x04\x03\x01\x01\xff\xff\x03\x02\x01\xff\xff\x04\x01\x04\x02\x05\x06",
    },
    Model {
        name: "both",
        file: b"\x01\x01\x02\x02\x01\x02\x02\x02\x01\x03\x01\x01\x00\x02\x03\x01\x02\x00\x03\x04\x01\x06",
    },
    Model {
        name: "idle",
        file: b"\x01\x01\x01\x02\x01\x00\x03\x01\x01\x00\x09\x04\x01\x06",
    },
    Model {
        name: "large, window 4",
        file: b"\x01\x01\x01\x02\x01\x04\x03\x01\x01\xff\xff\x04\x01\x06",
    },
    Model {
        name: "large, window 5",
        file: b"\x01\x01\x01\x02\x01\x05\x03\x01\x01\xff\xff\x04\x01\x06",
    },
    Model {
        name: "exact",
        file: b"\x01\x01\x01\x02\x01\x08\x03\x01\x01\x01\x00\x04\x01\x06",
    },
    Model {
        name: "below",
        file: b"\x01\x01\x01\x02\x01\x08\x03\x01\x01\x00\xff\x04\x01\x06",
    },
    Model {
        name: "empty",
        file: b"",
    },
];

// Budgets of slots that come one after the other.
const SPLITS: [[u64; 8]; 10] = [
    [0; 8],
    [1; 8],
    [2; 8],
    [3; 8],
    [7; 8],
    [u64::MAX; 8],
    [1, 0, 0, 0, 0, 0, 0, 0],
    [1, 2, 0, 0, 0, 0, 0, 0],
    [2, 0, 3, 1, 2, 0, 3, 1],
    [0, 1, 0, u64::MAX, 0, 7, u64::MAX, 0],
];

fn tell_refusal(rt: &impl Print, refusal: Refusal) -> io::Result<()> {
    print!(rt; " refused {} {}", refusal.number(), refusal.place())
}

fn tell_start(rt: &impl Print, answer: Result<(), Refusal>) -> io::Result<()> {
    match answer {
        Ok(()) => print!(rt; " started"),
        Err(refusal) => tell_refusal(rt, refusal),
    }
}

// Tells a slot's answer; the number done.
fn tell_slot(rt: &impl Print, answer: Result<Advanced, Halted>) -> io::Result<u64> {
    match answer {
        Ok(Advanced { done, value }) => {
            print!(rt; " {done} {value}")?;
            Ok(done)
        }
        Err(Halted::Stopped { done }) => {
            print!(rt; " stopped {done}")?;
            Ok(done)
        }
        Err(Halted::Refused(refusal)) => {
            tell_refusal(rt, refusal)?;
            Ok(0)
        }
    }
}

fn tell_cells(rt: &impl Print, area: &[u64]) -> io::Result<()> {
    print!(rt; "; cells")?;
    for cell in area {
        print!(rt; " {cell}")?;
    }
    print!(rt; "\n")
}

// A model's file, with a chain to lower, 0 for none.
#[derive(Clone, Copy)]
struct Case {
    file: &'static [u8],
    lower: u64,
}

impl Case {
    // A start, and a slot of each budget from a number done on.
    fn run(self, rt: &impl Print, from: u64, budgets: &[u64], area: &mut [u64]) -> io::Result<()> {
        let Case { file, lower } = self;
        print!(rt; "lowered {lower} from {from}:")?;
        tell_start(rt, runs::start(file, lower, area))?;
        let mut done = from;
        for budget in budgets {
            print!(rt; ", +{budget}")?;
            let answer = runs::advance::advance(file, lower, done, *budget, area);
            done = tell_slot(rt, answer)?;
        }
        tell_cells(rt, area)
    }

    // From the first pair on, in cells that hold other numbers first; more of them than any of these models has.
    fn splits(self, rt: &impl Print) -> io::Result<()> {
        for budgets in &SPLITS {
            self.run(rt, 0, budgets, &mut [7; 14])?;
        }
        Ok(())
    }

    // From each number done, up to one above the pairs of any of these models.
    fn each_done(self, rt: &impl Print) -> io::Result<()> {
        for from in 1..10 {
            self.run(rt, from, &[0, u64::MAX], &mut [7; 14])?;
        }
        self.run(rt, u64::MAX, &[0, u64::MAX], &mut [7; 14])
    }

    // In an area of each length, up to one above the cells of any of these models.
    fn each_area(self, rt: &impl Print) -> io::Result<()> {
        for room in 0..14 {
            let mut area = [7; 14];
            self.run(rt, 0, &[u64::MAX], &mut area[..room])?;
        }
        Ok(())
    }
}

// Whole and with each chain lowered: none of these models has more than two chains.
fn all(rt: &impl Print, file: &'static [u8]) -> io::Result<()> {
    for lower in 0..3 {
        let case = Case { file, lower };
        case.splits(rt)?;
        case.each_done(rt)?;
        case.each_area(rt)?;
    }
    Ok(())
}

fn main(rt: HostRuntime) -> io::Result<()> {
    for model in &MODELS {
        println!(&rt; "{}", model.name)?;
        all(&rt, model.file)?;
    }
    Ok(())
}
