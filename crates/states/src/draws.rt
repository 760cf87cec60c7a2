// Models drawn by chance.

ghost use Rattle.std.specs.Prelude.{◌≤◌, ◌<◌, ◌^◌, max};

use crate::model::{CENTRES, CHAINS, Model};
use std::ops::RangeInclusive;

// What models are drawn from.
#[derive(Drop)]
pub struct Shape {
    pub centres: RangeInclusive<u16>,
    pub chains: RangeInclusive<u16>,
    pub windows: RangeInclusive<u16>,
    pub loads: RangeInclusive<u16>,
    // the chance that a chain visits a centre that is not its home, in sixteenths
    pub visits: u64,
    // whether models come by two, on both sides of 2^64
    pub edges: bool,
}

// The last number drawn.
#[derive(Drop)]
pub struct Draws {
    last: u64,
}

impl Draws {
    pub fn new() -> Draws {
        Draws { last: 1 }
    }

    // A number below `count`. Each is made from the one before times 48271, modulo the prime 2^31 - 1.
    fn below(&mut self, count: u64) -> u64
        requires { 0 < count }
        ensures { result < count }
    {
        self.last = self.last % 2147483647 * 48271 % 2147483647;
        self.last % count
    }

    fn within(&mut self, range: &RangeInclusive<u16>) -> u16 {
        let least = *range.start();
        let width = range.end().saturating_sub(least);
        least + self.below(u64::from(width) + 1) as u16
    }

    // A model, and a number by chance for its trees.
    pub fn model(&mut self, shape: &Shape) -> (Model, u64) {
        let centres = usize::from(self.within(&shape.centres)).clamp(1, CENTRES);
        let chains = usize::from(self.within(&shape.chains)).min(CHAINS);
        let mut model = Model::new(centres, chains);
        self.draw_chains(shape, &mut model);
        self.draw_loads(shape, &mut model);
        (model, self.below(1001))
    }

    fn draw_chains(&mut self, shape: &Shape, model: &mut Model) {
        // tried over iter_mut: a field of a struct with a ghost fact can't be lent from behind a reference
        for k in 0..model.chain_count {
            model.chains[k].window = self.within(&shape.windows);
            model.chains[k].home = self.below(model.centres as u64) as usize;
        }
    }

    // A chain visits its home, and each other centre by chance.
    fn draw_loads(&mut self, shape: &Shape, model: &mut Model) {
        // every place draws, so that the draws don't depend on the model's size
        for c in 0..CENTRES {
            for k in 0..CHAINS {
                let by_chance = self.below(16) < shape.visits;
                let load = self.within(&shape.loads);
                let is_visited = by_chance || model.chains[k].home == c;
                if c < model.centres && k < model.chain_count && is_visited {
                    model.loads[c][k] = load;
                }
            }
        }
    }
}
