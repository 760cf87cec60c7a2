// One record: `rest` begins with its kind byte, which stands at `at`, and `m` is what the records before have given. Each kind is a
// function of its own, which is called once the kind is due and its bytes are there. A record is only told, and noted by the caller: a model
// handed back would cost a copy for each.
ghost use Rattle.std.specs.Prelude.{◌≡◌, ◌≤◌, ◌<◌, true, eqb, length, get_or, Err, IfOk, IfErr};
ghost use Rattle.sums.specs.Lists.{some};
ghost use Rattle.modelfile.specs.Records.{body_length, load_in, read_size, read_window, read_load, read_leaf, read_join, read_end, due, read_record};
ghost use Rattle.modelfile.proofs.SoundLaws.{Sound};
ghost use Rattle.reader.specs.Bytes.{Holds};
ghost use Rattle.reader.specs.Kinds.{kind_number};
ghost use Rattle.reader.specs.Said.{said, Room};

use crate::kinds::Kind;
use crate::model::{centre_missing, first_leaf_fails, is_placed, slot_of};
use crate::numbers::{Centre, Chain, is_outside, wide};
use modelfile::{Fault, Model, Refusal};

// What a record says, where it is not refused: something more of the model, or that it was the last one.
#[derive(Clone, Copy)]
pub enum Said {
    Size(Centre, Chain),
    Window(usize),
    Load(Centre, Chain, usize),
    Leaf(Centre),
    Join,
    Last,
}

const LARGEST_WINDOW: usize = 15;

const LARGEST_LOAD: usize = 65535;

// `rest`, `at` and `m` stay three. Tried: a `Record` of them whose invariant has Sound and the places' bound, with a method for each kind. It
// proves, but with it the library's sheets of m4, m5, m6 and m8 take 3 to 7 percent longer (bench/run, twice).
fn read_size(rest: &[u8], at: usize, m: Model) -> Result<Said, Refusal>
    requires { Holds 3 rest.now at }
    ensures { (said m at result ≡ read_size rest.now at m) × Room m result }
{
    let centres = Centre::field(rest, 1, at, Centre::LAST)?;
    let chains = Chain::field(rest, 2, at, Chain::LAST)?;
    Ok(Said::Size(centres, chains))
}

fn read_window(rest: &[u8], at: usize, m: Model) -> Result<Said, Refusal>
    requires holds { Holds 3 rest.now at }
    requires window_left { m.given < 8 }
    ensures { (said m at result ≡ read_window rest.now at m) × Room m result }
{
    if wide(rest[1]) != m.given + 1 {
        return Err(Fault::OutOfRange.at(at + 1));
    }
    let window = wide(rest[2]);
    if is_outside(0, LARGEST_WINDOW, window) {
        return Err(Fault::OutOfRange.at(at + 2));
    }
    Ok(Said::Window(window))
}

fn load_in(rest: &[u8]) -> usize
    requires { 5 ≤ length rest.now }
    ensures { result ≡ load_in rest.now }
{
    wide(rest[3]) * 256 + wide(rest[4])
}

fn read_load(rest: &[u8], at: usize, m: Model) -> Result<Said, Refusal>
    requires holds { Holds 5 rest.now at }
    requires sound { Sound m }
    ensures { (said m at result ≡ read_load rest.now at m) × Room m result }
{
    let centre = Centre::field(rest, 1, at, m.centres)?;
    let chain = Chain::field(rest, 2, at, m.chains)?;
    let load = load_in(rest);
    if is_outside(1, LARGEST_LOAD, load) {
        return Err(Fault::OutOfRange.at(at + 3));
    }
    if slot_of(centre, chain) < m.passed {
        return Err(Fault::OutOfOrder.at(at));
    }
    Ok(Said::Load(centre, chain, load))
}

fn read_leaf(rest: &[u8], at: usize, m: Model) -> Result<Said, Refusal>
    requires holds { Holds 2 rest.now at }
    requires sound { Sound m }
    ensures { (said m at result ≡ read_leaf rest.now at m) × Room m result }
{
    let centre = Centre::field(rest, 1, at, m.centres)?;
    if first_leaf_fails(m) {
        return Err(Fault::ChainWithoutCentre.at(at));
    }
    if is_placed(m, centre) {
        return Err(Fault::CentreAgain.at(at + 1));
    }
    Ok(Said::Leaf(centre))
}

fn read_join(rest: &[u8], at: usize, m: Model) -> Result<Said, Refusal>
    requires { Sound m }
    ensures { (said m at result ≡ read_join rest.now at m) × Room m result }
{
    if m.trees < 2 {
        return Err(Fault::TooFewSubtrees.at(at));
    }
    Ok(Said::Join)
}

fn read_end(rest: &[u8], at: usize, m: Model) -> Result<Said, Refusal>
    requires holds { Holds 1 rest.now at }
    requires sound { Sound m }
    ensures { (said m at result ≡ read_end rest.now at m) × Room m result }
{
    if m.trees != 1 || centre_missing(m) {
        return Err(Fault::NotOneTree.at(at));
    }
    if 1 < rest.len() {
        return Err(Fault::PastTheEnd.at(at + 1));
    }
    Ok(Said::Last)
}

// The size first; then the windows; then loads, up to the first leaf, and the tree.
fn is_due(m: Model, kind: Kind) -> bool
    ensures { result ≡ some (eqb (kind_number kind)) (due m) }
{
    if m.centres == 0 {
        return matches!(kind, Kind::Size);
    }
    if m.given < m.chains {
        return matches!(kind, Kind::Window);
    }
    if m.count == 0 {
        return matches!(kind, Kind::Load | Kind::Leaf);
    }
    matches!(kind, Kind::Leaf | Kind::Join | Kind::End)
}

// How long the body is after a kind byte, 0 after a byte that is no kind's.
pub fn body_length(kind: usize) -> usize
    ensures { (result ≡ body_length kind) × (result ≤ 4) }
{
    match Kind::try_from(kind) {
        Ok(kind) => kind.body_length(),
        Err(_) => 0,
    }
}

// A record's first two tests: that its kind is due, and that its bytes are there.
fn admit(kind: Kind, rest: &[u8], at: usize, m: Model) -> Result<(), Refusal>
    requires holds { Holds 1 rest.now at }
    requires kind_byte { kind_number kind ≡ get_or rest.now 0 0 }
    ensures kind_due { IfOk result (λ _. true ≡ some (eqb (kind_number kind)) (due m)) }
    ensures bytes_there { IfOk result (λ _. body_length (kind_number kind) < length rest.now) }
    ensures refused { IfErr result (λ r. said m at (Err r) ≡ read_record rest.now at m) }
{
    if !is_due(m, kind) {
        return Err(Fault::NotDue.at(at));
    }
    if rest.len() <= kind.body_length() {
        return Err(Fault::Incomplete.at(at + rest.len()));
    }
    Ok(())
}

// Each arm calls `admit` itself, for speed: there the kind is a constant, and one jump by the kind leads through the tests, the fields and the
// caller's `match`. With one call before the `match`, reading the longest file takes a quarter more instructions.
pub fn read_record(rest: &[u8], at: usize, m: Model) -> Result<Said, Refusal>
    requires holds { Holds 1 rest.now at }
    requires sound { Sound m }
    ensures { (said m at result ≡ read_record rest.now at m) × Room m result }
{
    let Ok(kind) = Kind::try_from(wide(rest[0])) else {
        return Err(Fault::NotDue.at(at));
    };
    match kind {
        Kind::Size => {
            admit(kind, rest, at, m)?;
            read_size(rest, at, m)
        }
        Kind::Window => {
            admit(kind, rest, at, m)?;
            read_window(rest, at, m)
        }
        Kind::Load => {
            admit(kind, rest, at, m)?;
            read_load(rest, at, m)
        }
        Kind::Leaf => {
            admit(kind, rest, at, m)?;
            read_leaf(rest, at, m)
        }
        Kind::Join => {
            admit(kind, rest, at, m)?;
            read_join(rest, at, m)
        }
        Kind::End => {
            admit(kind, rest, at, m)?;
            read_end(rest, at, m)
        }
    }
}
