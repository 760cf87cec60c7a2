// The weight of one centre at one index, exact or too large; whether a leaf has a weight that is too large; and a leaf's cells.
#![tactic(auto)]

ghost use Rattle.std.specs.Prelude.{◌≡◌, true, false, map, ◌++◌, ◌+◌, ◌*◌, ◌^◌, ◌≤◌, ◌<◌, leb, length, take};
ghost use Rattle.std.specs.List.{All};
ghost use Rattle.sums.specs.Lists.{some};
ghost use Rattle.arith.specs.Capped.{capped};
ghost use Rattle.network.specs.Weight.{binomial as binomial_of, weight};
ghost use Rattle.network.specs.Centre.{visit, fits};
ghost use Rattle.weights.specs.Leaf.{loads_of, highs_of, between, InWindow, LeafEnds};
ghost use Rattle.weights.specs.Parts.{cells_from, ToFill};
ghost use Rattle.weights.specs.Present.{Kept};

use binomials::binomial;

// What a chain has at a leaf: its load there, and the lowest and the highest value of its index.
#[derive(Clone, Copy, Default)]
pub struct Reach {
    pub load: u64,
    pub low: usize,
    pub high: usize,
}

fn times_power(acc: u64, load: u64, n: usize) -> Option<u64>
    ensures { result ≡ capped (acc * load ^ n) }
{
    let mut product = acc;
    for _ in 0..n {
        product = arith::mul(product, load)?;
    }
    Some(product)
}

// One chain's part of a weight: n messages, where those of the chains before are there already. The binomial comes last: it is at
// least 1, so a power that is too large settles it.
fn times_chain(acc: u64, load: u64, before: usize, n: usize) -> Option<u64>
    requires { (before + n ≤ 120) × (n ≤ 15) }
    ensures { result ≡ capped (acc * load ^ n * binomial_of (before + n) n) }
{
    let power = times_power(acc, load, n)?;
    arith::mul(power, binomial(before + n, n))
}

// The weight at the index that has each chain at its highest value.
pub fn weight_of(chains: &[Reach]) -> Option<u64>
    requires few_chains { (length chains.now ≤ 8) × All InWindow chains.now }
    requires on_route { fits (map visit (loads_of chains.now)) (highs_of chains.now) ≡ true }
    ensures { result ≡ capped (weight (loads_of chains.now) (highs_of chains.now)) }
{
    let mut acc: u64 = 1;
    let mut before: usize = 0;
    for chain in chains {
        acc = times_chain(acc, chain.load, before, chain.high)?;
        before += chain.high;
    }
    Some(acc)
}

// Whether some cell of a leaf is too large. No index has a larger weight than the highest.
pub fn some_too_large(chains: &[Reach]) -> bool
    requires { LeafEnds chains.now }
    ensures { result ≡ some (λ n. leb (2 ^ 64) n) (map (weight (loads_of chains.now)) (between chains.now)) }
{
    weight_of(chains).is_none()
}

fn exact_power(acc: u64, load: u64, n: usize) -> u64
    requires { acc * load ^ n < 2 ^ 64 }
    ensures { result ≡ acc * load ^ n }
{
    times_power(acc, load, n).unwrap()
}

// The cells of these chains, from `at` on, where the chains before make `acc` and have `before` messages. Returns the place after
// them. Nothing is too large, so the products need no test; past the highest value the power is not used, and may wrap.
fn fill(chains: &[Reach], acc: u64, before: usize, out: &mut [u64], at: usize) -> usize
    requires { ToFill chains.now acc before at (length out.old) }
    ensures next_place { result ≡ at + length (between chains.now) }
    ensures written { take result out.new ≡ take at out.old ++ cells_from acc before chains.now }
{
    match chains.split_first() {
        None => {
            out[at] = acc;
            at + 1
        }
        Some((chain, later)) => {
            let mut power = exact_power(acc, chain.load, chain.low);
            let mut next = at;
            for i in chain.low..chain.high + 1 {
                let cell = power * binomial(before + i, i);
                if later.is_empty() {
                    // a call would store this cell too, and take longer
                    out[next] = cell;
                    next += 1;
                } else {
                    next = fill(later, cell, before + i, out, next);
                }
                power = power.wrapping_mul(chain.load);
            }
            next
        }
    }
}

// The chains that are present at a leaf, in their order: those whose highest value is not 0. A count beside an array of fixed length, since
// there is no heap.
#[derive(Clone, Copy)]
struct Present {
    count: usize,
    chains: [Reach; 8],
}

fn those_present(chains: &[Reach]) -> Present
    requires { length chains.now ≤ 8 }
    ensures { Kept chains.now result.count result.chains }
{
    let mut kept = [Reach::default(); 8];
    let mut count: usize = 0;
    for chain in chains {
        if 0 < chain.high {
            kept[count] = *chain;
            count += 1;
        }
    }
    Present {
        count,
        chains: kept,
    }
}

// A chain that stands at 0 changes no weight, so only those present are walked through.
pub fn write_cells(chains: &[Reach], out: &mut [u64])
    requires leaf_ends { LeafEnds chains.now }
    requires room { length out.old ≡ length (between chains.now) }
    requires none_large { some (λ n. leb (2 ^ 64) n) (map (weight (loads_of chains.now)) (between chains.now)) ≡ false }
    ensures { out.new ≡ map (weight (loads_of chains.now)) (between chains.now) }
{
    let present = those_present(chains);
    let kept = present.chains;
    fill(&kept[..present.count], 1, 0, out, 0);
}
