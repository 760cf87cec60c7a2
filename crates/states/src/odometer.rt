// The value as the sum over all states, which are gone through one by one. A state is how many messages of each chain are at each centre. All
// messages of a chain begin at its home; one goes from there to the first other centre that it visits, then the next one, and when none is left at
// home, those there go back and one goes to the centre after it: an odometer whose digits are the numbers of messages away from home.
ghost use Rattle.std.specs.Prelude.{◌<◌};

use crate::model::{CENTRES, CHAINS, Model};
use crate::table::{LeftOut, Table};

// The most states.
const STATES: usize = 3000;

// By centre and chain, how many messages.
#[derive(Clone, Copy)]
struct State([[u16; CHAINS]; CENTRES]);

impl State {
    // All messages at home.
    fn first(model: &Model) -> State {
        let mut messages = [[0; CHAINS]; CENTRES];
        for (k, chain) in model.chains.iter().enumerate() {
            messages[chain.home][k] = chain.window;
        }
        State(messages)
    }

    // Whether the digit of a chain at a centre went up; else it went back to 0.
    fn step(&mut self, c: usize, k: usize, home: usize) -> bool
        requires centre { c < CENTRES }
        requires chain { k < CHAINS }
        requires home { home < CENTRES }
    {
        let left = self.0[home][k];
        let away = self.0[c][k];
        if left == 0 {
            self.0[home][k] = away;
            self.0[c][k] = 0;
            return false;
        }
        self.0[home][k] = left - 1;
        self.0[c][k] = away.saturating_add(1);
        true
    }

    // The next state; false if it is the first one again.
    fn next(&mut self, model: &Model) -> bool {
        for (c, loads) in model.loads.iter().enumerate() {
            for (k, load) in loads.iter().enumerate() {
                let home = model.chains[k].home;
                if *load != 0 && c != home && self.step(c, k, home) {
                    return true;
                }
            }
        }
        false
    }

    // The product of the centres' weights. None of these is 0, so where a part of the product is 2^64 or more, all of it is.
    fn weight(&self, table: &Table, centres: usize) -> Option<u64> {
        let mut weight = 1;
        for (c, messages) in self.0.iter().enumerate().take(centres) {
            weight = arith::mul(weight, table.weight(c, messages)?)?;
        }
        Some(weight)
    }
}

// G(N), by the table of a model with these windows or larger ones; None if that is 2^64 or more.
pub fn value(table: &Table, model: &Model) -> Result<Option<u64>, LeftOut> {
    let mut state = State::first(model);
    let mut sum = Some(0);
    for _ in 0..STATES {
        sum = sum.and_then(|so_far| arith::add(so_far, state.weight(table, model.centres)?));
        if !state.next(model) {
            return Ok(sum);
        }
    }
    Err(LeftOut)
}
