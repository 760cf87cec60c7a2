// What a model has.

ghost use Rattle.std.specs.Prelude.{◌≡◌, ◌<◌, ◌≤◌, sum};
ghost use Rattle.states.specs.Busiest.{busiest};
ghost use Rattle.states.specs.declared.model.TheConstants.{CENTRES, CHAINS};

// The most centres and chains.
pub const CENTRES: usize = 16;

pub const CHAINS: usize = 8;

// A chain's window, and the index of a centre that it visits.
#[derive(Clone, Copy)]
pub struct Chain {
    pub window: u16,
    pub home: usize,
    ghost home_is_centre: { home < CENTRES },
}

// Of `chains`, those past the first `chain_count` have window 0. The load of a chain at a centre is `loads[centre][chain]`, 0 where it does not
// visit. No heap: there is room for the most of both, and all of it is gone through alike.
#[derive(Clone, Copy)]
pub struct Model {
    pub centres: usize,
    pub chain_count: usize,
    pub chains: [Chain; CHAINS],
    pub loads: [[u16; CHAINS]; CENTRES],
    ghost some_centre: { 0 < centres },
    ghost few_centres: { centres ≤ CENTRES },
    ghost few_chains: { chain_count ≤ CHAINS },
}

impl Model {
    // No chain has a message or visits.
    pub(crate) fn new(centres: usize, chain_count: usize) -> Model
        requires some_centre { 0 < centres }
        requires few_centres { centres ≤ CENTRES }
        requires few_chains { chain_count ≤ CHAINS }
    {
        Model {
            centres,
            chain_count,
            chains: [Chain { window: 0, home: 0 }; CHAINS],
            loads: [[0; CHAINS]; CENTRES],
        }
    }

    pub(crate) fn set_window(&mut self, k: usize, window: u16)
        requires { k < CHAINS }
    {
        self.chains[k].window = window;
    }

    // A chain visits a centre, which becomes its home.
    fn visit_last(&mut self, c: usize, k: usize, load: u16)
        requires centre { c < CENTRES }
        requires chain { k < CHAINS }
    {
        self.loads[c][k] = load;
        self.chains[k].home = c;
    }

    // The model with a chain's window one less, if it has messages; 0 lowers none.
    pub(crate) fn lowered(&self, lower: usize) -> Option<Model>
        requires { lower ≤ CHAINS }
    {
        let mut model = *self;
        if lower != 0 {
            let k = lower - 1;
            let window = model.chains[k].window.checked_sub(1)?;
            model.set_window(k, window);
        }
        Some(model)
    }

    // The first centre with the largest sum of loads.
    pub fn busiest(&self) -> u64
        ensures { result ≡ busiest self.now.loads }
    {
        let mut best = 1;
        let mut most = 0;
        for (c, loads) in self.loads.iter().enumerate() {
            let sum = sum_of(loads);
            if most < sum {
                most = sum;
                best = c as u64 + 1;
            }
        }
        best
    }
}

fn sum_of(loads: &[u16; CHAINS]) -> u64
    ensures { result ≡ sum loads.now }
{
    loads.iter().map(|load| u64::from(*load)).sum()
}

// A model of at most two chains and three centres: how many of each, the windows, and by centre the loads of the two chains.
pub struct Given {
    pub centres: usize,
    pub chains: usize,
    pub windows: [u16; 2],
    pub loads: [[u16; 2]; 3],
}

impl Given {
    // A chain's home is the last centre that it visits.
    pub fn model(&self) -> Model {
        let mut model = Model::new(self.centres.clamp(1, CENTRES), self.chains.min(CHAINS));
        for (k, window) in self.windows.iter().enumerate() {
            model.set_window(k, *window);
        }
        for (c, loads) in self.loads.iter().enumerate() {
            for (k, load) in loads.iter().enumerate() {
                if *load != 0 {
                    model.visit_last(c, k, *load);
                }
            }
        }
        model
    }
}
