// Rows of one number a chain.
ghost use Rattle.std.specs.Prelude.{◌≡◌, ℕ, ◌≤◌, ◌<◌};
ghost use Rattle.plan.specs.Table.{row};

// Each chain's number, chain 1 first; 0 past the chains.
pub fn row<F: Fn(usize) -> usize>(chains: usize, number: F) -> [usize; 8]
    requires few { chains ≤ 8 }
    requires callable { (k : ℕ) → k < chains → F.pre number k }
    ensures { (f : ℕ → ℕ) → ((k n : ℕ) → k < chains → F.post number k n → n ≡ f k) → result ≡ row chains f }
{
    let mut all = [0usize; 8];
    for k in 0..chains {
        all[k] = number(k);
    }
    all
}
