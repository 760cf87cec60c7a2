// The kinds of number in a file, each with its ends: "these ends are constants that belong to each kind of number".
ghost use Rattle.std.specs.Prelude.{◌≡◌, ◌+◌, ◌^◌, ◌<◌, length};
ghost use Rattle.modelfile.specs.Ends.{outside};
ghost use Rattle.reader.specs.Numbers.{numbered, field};

use modelfile::{Fault, Refusal};

// Every kind of number begins here.
const FIRST: usize = 1;

// A number of one kind, from FIRST to `last`: to the kind's LAST in the size record, to the number declared there afterwards.
#[derive(Clone, Copy, PartialEq, Eq)]
pub struct Number<const LAST: usize> {
    pub n: usize,
}

// Two impls with constants, and no `impl<const LAST: usize>` with both: a generic impl's constant reaches the proofs as a call with no
// clause, so that slot_of and has_centre would know nothing of it.
pub type Centre = Number<16>;

impl Centre {
    pub const FIRST: usize = FIRST;

    pub const LAST: usize = 16;
}

pub type Chain = Number<8>;

impl Chain {
    pub const FIRST: usize = FIRST;

    pub const LAST: usize = 8;
}

impl<const LAST: usize> Number<LAST> {
    pub fn new(n: usize, last: usize) -> Option<Self>
        ensures { result ≡ numbered n last }
    {
        if is_outside(FIRST, last, n) {
            return None;
        }
        Some(Number { n })
    }

    // The number at byte i of a record that begins at `at`: "a field outside its range" is refused at its first byte.
    pub fn field(rest: &[u8], i: usize, at: usize, last: usize) -> Result<Self, Refusal>
        requires in_record { i < length rest.now }
        requires fits { at + i < 2 ^ 64 }
        ensures { result ≡ field rest.now i at last }
    {
        Self::new(wide(rest[i]), last).ok_or(Fault::OutOfRange.at(at + i))
    }
}

#[tactic(auto, unfolding(modelfile::specs::Ends::outside))]
pub fn is_outside(first: usize, last: usize, n: usize) -> bool
    ensures { result ≡ outside first last n }
{
    n < first || last < n
}

// `as` in a function, since the clause also tells callers the bound.
pub fn wide(b: u8) -> usize
    ensures { (result ≡ b) × (result < 256) }
{
    b as usize
}
