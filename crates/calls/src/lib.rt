// What the calls answer. The definitions over these types are in specs/; specs/Answers.antt gives document 01's number, place and
// values for each case, as boards have them. The code of the calls stands in crates of its own.
#![tactic(auto)]

ghost use Rattle.std.specs.Prelude.{◌≡◌};
ghost use Rattle.calls.specs.declared.Halted.{Halted};
ghost use Rattle.calls.specs.declared.Refusal.{Refusal};
ghost use Rattle.calls.specs.Answers.{number_of, place_of, plan_numbers, start_numbers, advance_numbers, sheet_numbers};

// Why a call refuses; a file's fault has a place, the others have none.
#[derive(Clone, Copy, PartialEq, Eq)]
pub enum Refusal {
    File(modelfile::Refusal),
    // the lowered chain is above the number of chains
    NoSuchChain,
    // the lowered chain has window 0
    WindowZero,
    // cells above 8192 or above the area's length
    NoRoom,
    // pairs done above the total
    PastTotal,
    // a cell would reach 2^64
    TooLarge,
    // the sheet's: the value is below 2^64, a lowered one isn't
    LoweredTooLarge,
}

impl Refusal {
    #[tactic(auto, unfolding(crate::specs::Answers::number_of))]
    pub fn number(self) -> u64
        ensures { result ≡ number_of self }
    {
        match self {
            Refusal::File(r) => r.fault.number(),
            Refusal::NoSuchChain => 10,
            Refusal::WindowZero => 11,
            Refusal::NoRoom => 12,
            Refusal::PastTotal => 13,
            Refusal::TooLarge => 14,
            Refusal::LoweredTooLarge => 15,
        }
    }

    #[tactic(auto, unfolding(crate::specs::Answers::place_of))]
    pub fn place(self) -> u64
        ensures { result ≡ place_of self }
    {
        match self {
            Refusal::File(r) => r.place as u64,
            _ => 0,
        }
    }
}

impl From<modelfile::Refusal> for Refusal {
    ghost from_gives = { λ r result. result ≡ Refusal.File r };

    fn from(r: modelfile::Refusal) -> Self {
        Self::File(r)
    }
}

// What a plan tells.
#[derive(Clone, Copy, PartialEq, Eq)]
pub struct Planned {
    pub cells: u64,
    pub pairs: u64,
}

// What an advance tells: the new number done, and the value once that is the total, else 0 (document 01 has the 0, so no Option).
#[derive(Clone, Copy, PartialEq, Eq)]
pub struct Advanced {
    pub done: u64,
    pub value: u64,
}

// Why an advance ends early: at a pair, with the pairs before it in the area and a number done, or refused with the area untouched.
#[derive(Clone, Copy, PartialEq, Eq)]
pub enum Halted {
    // the number done before the pair that would reach 2^64
    Stopped { done: u64 },
    Refused(Refusal),
}

impl From<Refusal> for Halted {
    ghost from_gives = { λ r result. result ≡ Halted.Refused r };

    fn from(r: Refusal) -> Self {
        Self::Refused(r)
    }
}

// Eight numerators and how many chains, as document 01 and the header have them: fixed memory.
#[derive(Clone, Copy, PartialEq, Eq)]
pub struct Sheet {
    pub value: u64,
    pub pairs: u64,
    pub cells: u64,
    pub chains: u64,
    pub numerators: [u64; 8],
    pub busiest: u64,
}

// A Result has no layout in C, so boards get its numbers: `refusal` is 0 where nothing is refused.

#[repr(C)]
#[derive(Clone, Copy)]
pub struct PlanNumbers {
    pub refusal: u64,
    pub place: u64,
    pub cells: u64,
    pub pairs: u64,
}

impl From<Result<Planned, Refusal>> for PlanNumbers {
    ghost from_gives = { λ answer result. result ≡ plan_numbers answer };

    #[tactic(auto, unfolding(crate::specs::Answers::plan_numbers))]
    fn from(answer: Result<Planned, Refusal>) -> Self {
        match answer {
            Ok(p) => PlanNumbers {
                refusal: 0,
                place: 0,
                cells: p.cells,
                pairs: p.pairs,
            },
            Err(r) => PlanNumbers {
                refusal: r.number(),
                place: r.place(),
                cells: 0,
                pairs: 0,
            },
        }
    }
}

#[repr(C)]
#[derive(Clone, Copy)]
pub struct StartNumbers {
    pub refusal: u64,
    pub place: u64,
}

impl From<Result<(), Refusal>> for StartNumbers {
    ghost from_gives = { λ answer result. result ≡ start_numbers answer };

    #[tactic(auto, unfolding(crate::specs::Answers::start_numbers))]
    fn from(answer: Result<(), Refusal>) -> Self {
        match answer {
            Ok(()) => StartNumbers {
                refusal: 0,
                place: 0,
            },
            Err(r) => StartNumbers {
                refusal: r.number(),
                place: r.place(),
            },
        }
    }
}

#[repr(C)]
#[derive(Clone, Copy)]
pub struct AdvanceNumbers {
    pub refusal: u64,
    pub place: u64,
    pub done: u64,
    pub value: u64,
}

impl From<Result<Advanced, Halted>> for AdvanceNumbers {
    ghost from_gives = { λ answer result. result ≡ advance_numbers answer };

    #[tactic(auto, unfolding(crate::specs::Answers::advance_numbers))]
    fn from(answer: Result<Advanced, Halted>) -> Self {
        let (refusal, done, value) = match answer {
            Ok(a) => (None, a.done, a.value),
            Err(Halted::Stopped { done }) => (Some(Refusal::TooLarge), done, 0),
            Err(Halted::Refused(r)) => (Some(r), 0, 0),
        };
        AdvanceNumbers {
            refusal: refusal.map_or(0, |r| r.number()),
            place: refusal.map_or(0, |r| r.place()),
            done,
            value,
        }
    }
}

#[repr(C)]
#[derive(Clone, Copy)]
pub struct SheetNumbers {
    pub refusal: u64,
    pub place: u64,
    pub value: u64,
    pub pairs: u64,
    pub cells: u64,
    pub chains: u64,
    pub numerators: [u64; 8],
    pub busiest: u64,
}

impl From<Result<Sheet, Refusal>> for SheetNumbers {
    ghost from_gives = { λ answer result. result ≡ sheet_numbers answer };

    #[tactic(auto, unfolding(crate::specs::Answers::sheet_numbers, crate::specs::Answers::no_sheet))]
    fn from(answer: Result<Sheet, Refusal>) -> Self {
        match answer {
            Ok(s) => {
                let numerators = s.numerators;
                SheetNumbers {
                    refusal: 0,
                    place: 0,
                    value: s.value,
                    pairs: s.pairs,
                    cells: s.cells,
                    chains: s.chains,
                    numerators,
                    busiest: s.busiest,
                }
            }
            Err(r) => SheetNumbers {
                refusal: r.number(),
                place: r.place(),
                value: 0,
                pairs: 0,
                cells: 0,
                chains: 0,
                numerators: [0; 8],
                busiest: 0,
            },
        }
    }
}

// Where the tree part stands in the file.
#[repr(C)]
#[derive(Clone, Copy)]
pub struct PartNumbers {
    pub from: u64,
    pub length: u64,
}
