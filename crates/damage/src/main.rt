// Damaged files through the reader and the plan: the lines of the scope document, every front part of B, every byte of B set to other
// values, and bytes put in between. What is expected was written by another reading of the scope document (tools/reference.py).
#![tactic(auto)]

ghost use Rattle.std.specs.Prelude.{◌≤◌, length};

use std::io;

// B of the scope document.
const B: [u8; 38] = [
    1, 3, 2, 2, 1, 1, 2, 2, 1, 3, 1, 1, 0, 1, 3, 1, 2, 0, 2, 3, 2, 1, 0, 3, 3, 3, 2, 0, 1, 4, 1, 4,
    2, 5, 4, 3, 5, 6,
];

// What a byte is set to.
const VALUES: [u8; 12] = [0, 1, 2, 3, 4, 5, 6, 7, 8, 16, 17, 255];

// Number and place of a refusal, or 0 0 with cells and pairs: this program's words alone, so no Display.
fn answer(rt: &impl Print, file: &[u8], lower: u64) -> io::Result<()> {
    match plan::plan(file, lower) {
        Ok(plan) => println!(rt; " 0 0 {} {}", plan.cells, plan.pairs),
        Err(refusal) => println!(rt; " {} {}", refusal.number(), refusal.place()),
    }
}

// What is damaged, at which place, and which value it is.
fn head(rt: &impl Print, damage: char, at: usize, value: usize) -> io::Result<()> {
    print!(rt; "{damage} {at} {value}:")
}

// B up to a place.
fn front(rt: &impl Print, at: usize) -> io::Result<()>
    requires { at ≤ length B }
{
    head(rt, 'f', at, 0)?;
    answer(rt, &B[..at], 0)
}

// B with the byte at a place set to each value; past its end B as it is.
fn set(rt: &impl Print, at: usize) -> io::Result<()> {
    for (i, value) in VALUES.iter().enumerate() {
        let mut file = B;
        if let Some(byte) = file.get_mut(at) {
            *byte = *value;
        }
        head(rt, 's', at, i)?;
        answer(rt, &file, 0)?;
    }
    Ok(())
}

// B with one byte more at a place, a kind of record.
fn put(rt: &impl Print, at: usize, kind: u8) -> io::Result<()>
    requires { at ≤ length B }
{
    let mut file = [kind; 39];
    file[..at].copy_from_slice(&B[..at]);
    file[at + 1..].copy_from_slice(&B[at..]);
    head(rt, 'p', at, 0)?;
    answer(rt, &file, 0)
}

fn all(rt: &impl Print, at: usize) -> io::Result<()>
    requires { at ≤ length B }
{
    front(rt, at)?;
    set(rt, at)?;
    for kind in 3..7 {
        put(rt, at, kind)?;
    }
    Ok(())
}

fn main(rt: HostRuntime) -> io::Result<()> {
    for lower in 0..5 {
        head(&rt, 'l', 0, 0)?;
        answer(&rt, &B, lower)?;
    }
    for at in 0..=B.len() {
        all(&rt, at)?;
    }
    Ok(())
}
