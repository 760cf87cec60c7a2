// The windows of a run: the file's, with one of them one less where a chain is to be lowered.
ghost use Rattle.std.specs.Prelude.{◌≡◌, ℕ, ◌≤◌, IfOk, length, get_or};
ghost use Rattle.modelfile.proofs.Guaranteed.{Guaranteed};
ghost use Rattle.calls.specs.Asked.{lowering};
ghost use Rattle.plan.specs.Lowered.{lowered_of};

use calls::Refusal;
use modelfile::Model;

// That the model is Guaranteed stays a clause, for the reason at Run (lib.rt).
pub fn lowered(m: Model, lower: u64) -> Result<[usize; 8], Refusal>
    requires { Guaranteed m }
    ensures answer { lowered_of m result ≡ lowering m lower }
    ensures windows { IfOk result (λ w. (length w ≡ 8) × ((k : ℕ) → get_or w k 0 ≤ 15)) }
{
    let mut windows = m.windows;
    if lower == 0 {
        return Ok(windows);
    }
    let k = lower as usize;
    if m.chains < k {
        return Err(Refusal::NoSuchChain);
    }
    if windows[k - 1] == 0 {
        return Err(Refusal::WindowZero);
    }
    windows[k - 1] -= 1;
    Ok(windows)
}
