// The model as read from a file, and what reading answers. The definitions over these types are in specs/; the code that reads
// stands in a crate of its own.
#![tactic(auto)]

ghost use Rattle.std.specs.Prelude.{◌≡◌};
ghost use Rattle.modelfile.specs.Refusals.{fault_number};

// What the records up to some place have given. Arrays of fixed length with a count beside (there is
// no heap on a board), and 0 for a join, for no load and for a centre not yet placed: the definitions (specs/Records, specs/File) speak of these.
#[derive(Clone, Copy)]
pub struct Model {
    // the size record: how many centres and chains
    pub centres: usize,
    pub chains: usize,
    // how many windows have been given, and the windows, chain 1 first
    pub given: usize,
    pub windows: [usize; 8],
    // the slots up to the latest load's, and the loads: a slot for each centre and chain, 0 where no load is given
    pub passed: usize,
    pub loads: [u64; 128],
    // the place of the first leaf's kind byte
    pub first: usize,
    // how many nodes have been given, and the nodes in postorder: a leaf's centre, 0 for a join
    pub count: usize,
    pub nodes: [usize; 31],
    // how many subtrees stand, and for each centre whether it is in the tree (1) or not (0)
    pub trees: usize,
    pub placed: [usize; 16],
}

// Why a file is refused; document 01's numbers for these stand in specs/Refusals.antt.
#[derive(Clone, Copy, PartialEq, Eq)]
pub enum Fault {
    // the bytes end before the due record does
    Incomplete,
    // a kind that isn't due
    NotDue,
    // a field outside its range
    OutOfRange,
    // a load not above the one before in order
    OutOfOrder,
    // some chain has no centre
    ChainWithoutCentre,
    // a centre already in the tree
    CentreAgain,
    // a join with fewer than two subtrees
    TooFewSubtrees,
    // not one subtree, or a centre missing
    NotOneTree,
    // bytes after the end
    PastTheEnd,
}

impl Fault {
    #[tactic(auto, unfolding(crate::specs::Refusals::fault_number))]
    pub fn number(self) -> u64
        ensures { result ≡ fault_number self }
    {
        match self {
            Fault::Incomplete => 1,
            Fault::NotDue => 2,
            Fault::OutOfRange => 3,
            Fault::OutOfOrder => 4,
            Fault::ChainWithoutCentre => 5,
            Fault::CentreAgain => 6,
            Fault::TooFewSubtrees => 7,
            Fault::NotOneTree => 8,
            Fault::PastTheEnd => 9,
        }
    }

    pub fn at(self, place: usize) -> Refusal
        ensures { result ≡ record { fault = self; place = place } }
    {
        Refusal { fault: self, place }
    }
}

#[derive(Clone, Copy, PartialEq, Eq)]
pub struct Refusal {
    pub fault: Fault,
    pub place: usize,
}

// What one record says of the rest of the file, where it is not refused.
#[derive(Clone, Copy)]
pub enum Step {
    More,
    Last,
}

#[derive(Clone, Copy)]
pub struct Stepped {
    pub step: Result<Step, Refusal>,
    pub model: Model,
}

// What the whole file is. Where it is refused, the model holds what came before, so it stands beside the verdict.
#[derive(Clone, Copy)]
pub struct Reading {
    pub verdict: Result<(), Refusal>,
    pub model: Model,
}
