// A chain's coverage at a node, by counting, and what it makes of the node's cells and pairs.
ghost use Rattle.std.specs.Prelude.{◌≡◌, ℕ, ◌≤◌};
ghost use Rattle.network.specs.Cells.{span, size, stride};
ghost use Rattle.network.specs.Coverage.{partial};
ghost use Rattle.network.specs.Pairs.{triangle, factor};
ghost use Rattle.network.proofs.CoverageLaws.{coverage_by_count};
ghost use Rattle.plan.specs.Steps.{covering};

use crate::Cover;

// By how many of the chain's centres are under the node, of how many in all.
#[tactic(auto, unfolding(crate::specs::Steps::covering, network::proofs::CoverageLaws::coverage_by_count, network::specs::Coverage::coverage_by))]
pub fn coverage(count: usize, total: usize) -> Cover
    ensures { covering result ≡ coverage_by_count count total }
{
    if count == 0 {
        Cover::Absent
    } else if count == total {
        Cover::Finished
    } else {
        Cover::Partial
    }
}

// How many values the chain's index has. Windows stay numbers with a clause: a type of their own would ask more of callers.
#[tactic(auto, unfolding(crate::specs::Steps::covering, network::specs::Cells::span, network::specs::Cells::size))]
pub fn size(c: Cover, window: usize) -> usize
    requires { window ≤ 15 }
    ensures { result ≡ size (span (covering c) window) }
{
    match c {
        Cover::Finished | Cover::Absent => 1,
        Cover::Partial => window + 1,
    }
}

// The chain's stride, if the later chains make `later` cells.
#[tactic(auto, unfolding(crate::specs::Steps::covering, network::specs::Cells::span, network::specs::Cells::stride))]
pub fn stride(c: Cover, window: usize, later: usize) -> usize
    ensures { result ≡ stride (span (covering c) window) later }
{
    match c {
        Cover::Finished | Cover::Absent => 0,
        Cover::Partial => later,
    }
}

// The pairs (j, i) with j at most i and i at most n.
fn triangle(n: usize) -> usize
    requires { n ≤ 15 }
    ensures { result ≡ triangle n }
{
    (n + 1) * (n + 2) / 2
}

// A chain's factor of a join's number of pairs.
#[tactic(auto, unfolding(crate::specs::Steps::covering, network::specs::Cells::span, network::specs::Cells::size, network::specs::Pairs::factor))]
pub fn factor(left: Cover, right: Cover, join: Cover, n: usize) -> usize
    requires { n ≤ 15 }
    ensures { result ≡ factor (covering left) (covering right) (covering join) n }
{
    match (left, right, join) {
        (Cover::Partial, Cover::Partial, Cover::Partial) => triangle(n),
        (Cover::Partial, Cover::Partial, Cover::Absent) => 1,
        (Cover::Partial, _, _) => n + 1,
        _ => size(right, n),
    }
}
