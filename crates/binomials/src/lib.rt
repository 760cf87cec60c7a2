// The binomials of document 01. No other crate knows how they lie in the table.
#![tactic(auto)]

mod table; // table.rt: the numbers

ghost use Rattle.std.specs.Prelude.{◌≡◌, ◌≤◌};
ghost use Rattle.network.specs.Weight.{binomial as binomial_of};

// One table in the program: a constant array is laid out anew by each function that names it.
static LAID: [u64; 1936] = table::TABLE;

pub fn binomial(n: usize, k: usize) -> u64
    requires { (n ≤ 120) × (k ≤ 15) }
    ensures { result ≡ binomial_of n k }
{
    LAID[n * 16 + k]
}
