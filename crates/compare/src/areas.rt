// What the scope document says of B's area: its cells after some pairs, and how many it needs.
use judge::lines::B;
use states::files::{Tree, file_of};
use std::io;

fn tell_area(rt: &impl Print, file: &[u8], pairs: u64) -> io::Result<()> {
    let mut area = [7; 12];
    let _ = runs::start(file, 0, &mut area);
    let _ = runs::advance::advance(file, 0, 0, pairs, &mut area);
    print!(rt; "B's area after {pairs}:")?;
    for cell in &area[..11] {
        print!(rt; " {cell}")?;
    }
    print!(rt; "\n")
}

fn tell_room(rt: &impl Print, file: &[u8], area: &mut [u64]) -> io::Result<()> {
    let cells = area.len();
    let refusal = runs::start(file, 0, area).err();
    let number = refusal.map_or(0, |refusal| refusal.number());
    println!(rt; "B in {cells} cells: refused {number}")
}

pub fn tell_b(rt: &impl Print) -> io::Result<()> {
    let file = file_of(&B.model(), Tree::in_order(1));
    for pairs in [0, 1, 3, 6] {
        tell_area(rt, file.as_slice(), pairs)?;
    }
    tell_room(rt, file.as_slice(), &mut [7; 10])?;
    tell_room(rt, file.as_slice(), &mut [7; 11])
}
