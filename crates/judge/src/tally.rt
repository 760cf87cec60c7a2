// What is counted.
ghost use Rattle.std.specs.Prelude.{◌≡◌, ℕ, ◌<◌, replicate, slice_index};
ghost use Rattle.judge.specs.Counts.{counted, held, place, sum_at, value_counted, values_counted};

use states::values::Due;
use std::fmt;

#[derive(Clone, Copy)]
pub enum Count {
    Models,
    Trees,
    Runs,
    Values,
    // values of 2^64 or more, and those below it from 2^63 on
    Large,
    Below,
    // models with a value below 2^64 that reaches it when one load is larger by 1
    Edges,
    Differences,
}

// A number for each `Count`.
#[derive(Clone, Copy)]
pub struct Tally([u64; 8]);

impl Tally {
    pub fn new() -> Tally
        ensures { result.0 ≡ replicate 8 0 }
    {
        Tally([0; 8])
    }

    pub fn counted(&self, what: Count) -> u64
        ensures { result ≡ slice_index self.now.0 (place what) }
    {
        self.0[what as usize]
    }

    pub fn count(&mut self, what: Count)
        ensures { self.new.0 ≡ counted self.old.0 what }
    {
        let n = self.counted(what);
        self.0[what as usize] = n.saturating_add(1);
    }

    // What is as due, and what is not.
    pub fn hold(&mut self, what: Count, agrees: bool)
        ensures { self.new.0 ≡ held self.old.0 what agrees }
    {
        self.count(what);
        if !agrees {
            self.count(Count::Differences);
        }
    }

    // The value of a run is not 0.
    fn count_value(&mut self, value: Option<u64>)
        ensures { self.new.0 ≡ value_counted self.old.0 value }
    {
        if value == Some(0) {
            return;
        }
        self.count(Count::Values);
        match value {
            None => self.count(Count::Large),
            Some(v) if 1 << 63 <= v => self.count(Count::Below),
            Some(_) => {}
        }
    }

    pub fn count_values(&mut self, due: &Due)
        ensures { self.new.0 ≡ values_counted self.old.0 due.now }
    {
        for value in due {
            self.count_value(*value);
        }
    }

    pub fn add(&mut self, other: &Tally)
        ensures { (k : ℕ) → k < 8 → slice_index self.new.0 k ≡ sum_at self.old.0 other.now.0 k }
    {
        for (k, n) in self.0.iter_mut().enumerate() {
            *n = n.saturating_add(other.0[k]);
        }
    }
}

impl fmt::Display for Tally {
    fn fmt<W: fmt::Write>(&self, f: &mut fmt::Formatter<W>) -> fmt::Result {
        for n in &self.0 {
            write!(f, " {n}")?;
        }
        Ok(())
    }
}
