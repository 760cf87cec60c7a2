// Sums and products of 64-bit numbers, exact or too large: formed in 128 bits, where they always fit.
#![tactic(auto)]

ghost use Rattle.std.specs.Prelude.{◌≡◌, ◌+◌, ◌*◌, ◌<◌, ◌^◌};
ghost use Rattle.arith.specs.Capped.{capped};

#[tactic(auto, using(crate::proofs::CappedLaws::capped_some))]
pub fn add(acc: u64, p: u64) -> Option<u64>
    ensures { result ≡ capped (acc + p) }
{
    acc.checked_add(p)
}

#[tactic(auto, using(crate::proofs::CappedLaws::capped_ok))]
pub fn mul_add(acc: u64, a: u64, b: u64) -> Option<u64>
    ensures { result ≡ capped (acc + a * b) }
{
    u64::try_from(acc as u128 + a as u128 * b as u128).ok()
}

pub fn mul(a: u64, b: u64) -> Option<u64>
    ensures { result ≡ capped (a * b) }
{
    mul_add(0, a, b)
}
