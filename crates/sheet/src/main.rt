// A model file from standard input, and its sheet on standard output. An accepted file has at most 715 bytes, so the first 716 settle
// the answer.
#![tactic(auto)]

ghost use Rattle.std.specs.Prelude.{◌≤◌, IfOk};

use calls::{Refusal, Sheet};
use std::io;
use std::io::Read;

fn print(rt: &impl Print, answer: Result<Sheet, Refusal>) -> io::Result<()> {
    match answer {
        Ok(sheet) => tell(rt, sheet),
        Err(refusal) => println!(rt; "refused {} at {}", refusal.number(), refusal.place()),
    }
}

// The rates are not reduced. Printed here, and not by Display: these are this program's words alone.
fn tell(rt: &impl Print, sheet: Sheet) -> io::Result<()> {
    let value = sheet.value;
    println!(rt;
        "value {value}\npairs {} cells {}",
        sheet.pairs, sheet.cells
    )?;
    for (chain, numerator) in (1..=sheet.chains).zip(sheet.numerators) {
        println!(rt; "chain {chain} {numerator}/{value}")?;
    }
    println!(rt; "busiest {}", sheet.busiest)
}

// As many bytes as there are, and at most as many as `file` takes; how many. What `copy` ensures of its count does not show the bound.
fn read_full(input: &mut impl Read, file: &mut [u8; 716]) -> io::Result<usize>
    ensures { IfOk result (λ n. n ≤ 716) }
{
    let n = io::copy(&mut input.take(716), &mut file.as_mut_slice())?;
    Ok(n.min(716) as usize)
}

fn main(rt: HostRuntime) -> io::Result<()> {
    let mut file = [0; 716];
    let n = read_full(&mut rt.reader(), &mut file)?;
    print(&rt, ratesheet::sheet(&file[..n], &mut [0; 8192]))
}
