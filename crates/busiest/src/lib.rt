// The busiest centre: the lowest-numbered one among those with the largest sum of loads.
#![tactic(auto)]

ghost use Rattle.std.specs.Prelude.{◌≡◌, ◌+◌, ◌≤◌, ◌<◌};
ghost use Rattle.modelfile.proofs.Guaranteed.{Guaranteed};
ghost use Rattle.calls.specs.Sheet.{load_sum, busiest};

use modelfile::Model;

// The sum of a centre's loads. That the model is Guaranteed stays a clause, for the reason at plan's Run.
fn load_sum(m: Model, centre: usize) -> u64
    requires { Guaranteed m × (1 ≤ centre) × (centre ≤ m.centres) }
    ensures { result ≡ load_sum m centre }
{
    let first = (centre - 1) * 8;
    m.loads[first..first + m.chains].iter().sum()
}

pub fn busiest(m: Model) -> usize
    requires { Guaranteed m }
    ensures { result ≡ busiest m }
{
    let mut busiest = 1;
    let mut most = 0;
    for centre in 1..=m.centres {
        let sum = load_sum(m, centre);
        // an equal sum leaves the centre before it
        if most < sum {
            busiest = centre;
            most = sum;
        }
    }
    busiest
}
