// The model as far as it is read: where a record notes something, and what refusals 5, 6 and 8 look at.
ghost use Rattle.std.specs.Prelude.{◌≡◌, ◌&&◌, not, ◌≤◌, ◌<◌, ◌-◌, eqb, get_or};
ghost use Rattle.std.specs.List.{list_any, range_with_len};
ghost use Rattle.modelfile.specs.Ends.{last_centre, last_chain};
ghost use Rattle.modelfile.specs.Model.{empty_model, slot, first_place};
ghost use Rattle.modelfile.specs.Records.{loaded, chain_without_centre, centre_missing};
ghost use Rattle.modelfile.proofs.StepLaws.{Within};

use crate::numbers::{Centre, Chain};
use modelfile::Model;

#[tactic(auto, unfolding(modelfile::specs::Model::empty_model))]
pub fn empty_model() -> Model
    ensures { result ≡ empty_model }
{
    Model {
        centres: 0,
        chains: 0,
        given: 0,
        windows: [0usize; 8],
        passed: 0,
        loads: [0u64; 128],
        first: 0,
        count: 0,
        nodes: [0usize; 31],
        trees: 0,
        placed: [0usize; 16],
    }
}

pub fn slot_of(centre: Centre, chain: Chain) -> usize
    requires { Within 1 last_centre centre.n × Within 1 last_chain chain.n }
    ensures { result ≡ slot centre.n chain.n }
{
    (centre.n - Centre::FIRST) * Chain::LAST + (chain.n - Chain::FIRST)
}

pub fn first_place(count: usize, at: usize, first: usize) -> usize
    ensures { result ≡ first_place (eqb count 0) at first }
{
    if count == 0 { at } else { first }
}

// Whether chain k + 1 has a centre.
fn has_centre(loads: &[u64; 128], k: usize) -> bool
    requires { k < 8 }
    ensures { result ≡ list_any (loaded loads.now k) (range_with_len 0 last_centre) }
{
    (0..Centre::LAST).any(|c| loads[c * Chain::LAST + k] != 0)
}

// The clause is in std's words, which the check proves alone. Tried: `result ≡ chain_without_centre m`, by `SomeLaws.without_is`; the proof of
// `returns` didn't close.
fn chain_without_centre(m: Model) -> bool
    requires { m.chains ≤ 8 }
    ensures { result ≡ list_any (λ k. not (list_any (loaded m.loads k) (range_with_len 0 last_centre))) (range_with_len 0 m.chains) }
{
    (0..m.chains).any(|k| !has_centre(&m.loads, k))
}

// 5 is looked at where no node stands yet.
pub fn first_leaf_fails(m: Model) -> bool
    requires { m.chains ≤ 8 }
    ensures { result ≡ (eqb m.count 0 && chain_without_centre m) }
{
    m.count == 0 && chain_without_centre(m)
}

pub fn is_placed(m: Model, centre: Centre) -> bool
    requires { Within 1 last_centre centre.n }
    ensures { result ≡ not (eqb (get_or m.placed (centre.n - 1) 0) 0) }
{
    let i = centre.n - Centre::FIRST;
    m.placed[i] != 0
}

pub fn centre_missing(m: Model) -> bool
    requires { m.centres ≤ 16 }
    ensures { result ≡ centre_missing m }
{
    m.placed[..m.centres].contains(&0)
}
