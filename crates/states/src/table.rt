// A table of weights for each centre, by the recurrence: the weight of no messages is 1, and otherwise it is the sum, over the chains that have a message
// there, of the chain's load times the weight with one message of that chain less.

ghost use Rattle.std.specs.Prelude.{◌<◌, ◌≤◌, length, IfSome};

use crate::model::{CHAINS, Model};

// The most entries, of all centres together.
const ENTRIES: usize = 8192;

// A model that is left out: it has too many weights or states.
#[derive(Clone, Copy)]
pub struct LeftOut;

// A chain's digit in an index: what one message adds, and its window + 1.
#[derive(Clone, Copy)]
struct Digit {
    step: usize,
    radix: usize,
    ghost step_is_positive: { 0 < step },
    ghost radix_is_positive: { 0 < radix },
}

impl Digit {
    // The index with one message of the chain less, if it has one.
    fn less(self, index: usize) -> Option<usize>
        ensures { IfSome result (λ n. n < index) }
    {
        if index / self.step % self.radix == 0 {
            return None;
        }
        index.checked_sub(self.step)
    }
}

// `size` entries for each centre; a weight of 2^64 or more is None. Fixed memory, as in the library.
#[derive(Drop)]
pub struct Table {
    digits: [Digit; CHAINS],
    size: usize,
    weights: [Option<u64>; ENTRIES],
    ghost size_is_positive: { 0 < size },
}

impl Table {
    pub fn new() -> Table {
        Table {
            digits: [Digit { step: 1, radix: 1 }; CHAINS],
            size: 1,
            weights: [None; ENTRIES],
        }
    }

    // A chain's step is the product of the windows + 1 of those before it.
    fn set_digits(&mut self, model: &Model) {
        let mut step: usize = 1;
        for (digit, chain) in self.digits.iter_mut().zip(&model.chains) {
            let radix = usize::from(chain.window) + 1;
            *digit = Digit { step, radix };
            step = step.saturating_mul(radix);
        }
        self.size = step;
    }

    pub fn fill(&mut self, model: &Model) -> Result<(), LeftOut> {
        self.set_digits(model);
        if ENTRIES < self.size.saturating_mul(model.centres) {
            return Err(LeftOut);
        }
        let digits = self.digits;
        let centres = self.weights.chunks_exact_mut(self.size);
        for (weights, loads) in centres.zip(&model.loads).take(model.centres) {
            fill_centre(weights, &digits, loads);
        }
        Ok(())
    }

    // The weight of a centre's messages.
    pub(crate) fn weight(&self, centre: usize, messages: &[u16; CHAINS]) -> Option<u64> {
        let mut index = centre.saturating_mul(self.size);
        for (digit, n) in self.digits.iter().zip(messages) {
            index = index.saturating_add(digit.step.saturating_mul(usize::from(*n)));
        }
        self.weights.get(index).copied().flatten()
    }
}

fn fill_centre(weights: &mut [Option<u64>], digits: &[Digit; CHAINS], loads: &[u16; CHAINS]) {
    // each weight needs those before it
    for index in 0..weights.len() {
        weights[index] = next_weight(&weights[..index], digits, loads);
    }
}

// The weight that comes after those before it.
fn next_weight(
    before: &[Option<u64>],
    digits: &[Digit; CHAINS],
    loads: &[u16; CHAINS],
) -> Option<u64> {
    if before.is_empty() {
        return Some(1);
    }
    let mut sum = 0;
    for (digit, load) in digits.iter().zip(loads) {
        if *load != 0
            && let Some(less) = digit.less(before.len())
        {
            sum = arith::mul_add(sum, u64::from(*load), before[less]?)?;
        }
    }
    Some(sum)
}
