// A chain's numerator: the value with its window one less, 0 where the window is 0.
#![tactic(auto)]

ghost use Rattle.std.specs.Prelude.{◌≡◌, ◌≤◌, length};
ghost use Rattle.modelfile.specs.Network.{windows_of};
ghost use Rattle.modelfile.proofs.Guaranteed.{Guaranteed};
ghost use Rattle.arith.specs.Capped.{capped};
ghost use Rattle.calls.specs.Asked.{cells_in};
ghost use Rattle.calls.specs.Sheet.{numerator};
ghost use Rattle.rates.specs.Steps.{Kept, numerators_of};

use modelfile::Model;
use plan::windows::lowered;
use runs::whole::whole_value;

// "A chain with window 0 has numerator 0 and isn't run." That the model is Guaranteed stays a clause, for the reason at plan's Run.
fn numerator(m: &Model, chain: u64, area: &mut [u64]) -> Option<u64>
    requires guaranteed { Guaranteed m.now × (1 ≤ chain) × (cells_in m.now (windows_of m.now) ≤ length area.old) }
    ensures value { result ≡ capped (numerator m.now chain) }
    ensures kept { Kept (cells_in m.now (windows_of m.now)) area.old area.new }
{
    match lowered(*m, chain) {
        Ok(windows) => whole_value(*m, windows, area),
        Err(_) => Some(0),
    }
}

// A numerator for each chain, if none is too large.
pub fn numerators(m: &Model, area: &mut [u64]) -> Option<[u64; 8]>
    requires guaranteed { Guaranteed m.now × (cells_in m.now (windows_of m.now) ≤ length area.old) }
    ensures numbers { result ≡ numerators_of m.now }
    ensures kept { Kept (cells_in m.now (windows_of m.now)) area.old area.new }
{
    let mut numbers = [0u64; 8];
    for (k, number) in numbers[..m.chains].iter_mut().enumerate() {
        *number = numerator(m, k as u64 + 1, area)?;
    }
    Some(numbers)
}
