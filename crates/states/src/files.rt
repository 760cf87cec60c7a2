// The bytes of the model's file, with a tree of a given kind.
ghost use Rattle.std.specs.Prelude.{◌<◌};

use crate::model::Model;
use arrayvec::ArrayVec;

// The kinds of records, written here once more: what holds the library to account shares nothing with it but arith.
#[derive(Clone, Copy)]
enum Kind {
    Size = 1,
    Window,
    Load,
    Leaf,
    Join,
    End,
}

// The longest file has fewer bytes.
pub type File = ArrayVec<u8, 720>;

// Patterns: each leaf joined at once, all leaves first, and subtrees of as many leaves joined.
const AT_ONCE: u64 = 0x5555_5555_5555_5555;

const ALL_LEAVES_FIRST: u64 = 0;

const AS_MANY: u64 = 0x0484_c484;

// Digit j of the pattern, in base 4, is the number of joins after leaf j + 1, as far as there are subtrees to join; after the last leaf all are joined.
// The leaves are the centres step * i + turn modulo 17, for i from 0 to 16, as far as there are such; with a step from 1 to 16 each centre comes once.
#[derive(Clone, Copy)]
pub struct Tree {
    pattern: u64,
    step: u64,
    turn: u64,
}

impl Tree {
    fn new(pattern: u64, step: u64, turn: u64) -> Tree {
        Tree {
            pattern,
            step,
            turn,
        }
    }

    // The leaves in order from a centre on, each joined at once.
    pub fn in_order(first: u64) -> Tree {
        Tree::new(AT_ONCE, 1, first)
    }

    // The trees that are tried: with the leaves in order, and in an order by chance. Each leaf is joined at once, or all leaves come first (in an
    // order by chance the joins are by chance too), or subtrees of as many leaves are joined.
    pub fn tried(chance: u64) -> [Tree; 6] {
        let by_chance = chance.saturating_mul(48271);
        let step = chance % 16 + 1;
        let turn = chance / 16 % 17;
        [
            Tree::in_order(1),
            Tree::new(ALL_LEAVES_FIRST, 1, 1),
            Tree::new(AS_MANY, 1, 1),
            Tree::new(AT_ONCE, step, turn),
            Tree::new(by_chance, step, turn),
            Tree::new(AS_MANY, step, turn),
        ]
    }

    // The number of a centre, which the model may not have; 0 for none.
    // An Option is no plainer: 0 is passed over as a number past the model's centres is.
    fn leaf(self, i: u64) -> u64
        ensures { result < 17 }
    {
        self.step.saturating_mul(i).saturating_add(self.turn) % 17
    }
}

// A record's fields, of a byte each.
fn push(file: &mut File, kind: Kind, fields: &[u16]) {
    let _ = file.try_push(kind as u8);
    for x in fields {
        let _ = file.try_push((*x % 256) as u8);
    }
}

fn push_windows(file: &mut File, model: &Model) {
    for (k, chain) in model.chains.iter().enumerate().take(model.chain_count) {
        push(file, Kind::Window, &[k as u16 + 1, chain.window]);
    }
}

fn push_loads(file: &mut File, model: &Model) {
    for (c, loads) in model.loads.iter().enumerate() {
        for (k, load) in loads.iter().enumerate() {
            if *load != 0 {
                push(
                    file,
                    Kind::Load,
                    &[c as u16 + 1, k as u16 + 1, *load / 256, *load],
                );
            }
        }
    }
}

fn push_tree(file: &mut File, tree: Tree, centres: u64) {
    let mut pattern = tree.pattern;
    let mut leaves = 0;
    let mut open = 0;
    for i in 0..17 {
        let centre = tree.leaf(i);
        if centre == 0 || centres < centre {
            continue;
        }
        push(file, Kind::Leaf, &[centre as u16]);
        leaves += 1;
        let joins = if leaves == centres {
            open
        } else {
            (pattern % 4).min(open)
        };
        for _ in 0..joins {
            push(file, Kind::Join, &[]);
        }
        open = open + 1 - joins;
        pattern /= 4;
    }
}

pub fn file_of(model: &Model, tree: Tree) -> File {
    let mut file = ArrayVec::new();
    push(
        &mut file,
        Kind::Size,
        &[model.centres as u16, model.chain_count as u16],
    );
    push_windows(&mut file, model);
    push_loads(&mut file, model);
    push_tree(&mut file, tree, model.centres as u64);
    push(&mut file, Kind::End, &[]);
    file
}
