// The model file of document 01: from bytes to a model or a refusal 1 to 9, and the tree part of a file.
#![tactic(auto)]

ghost use Rattle.std.specs.Prelude.{◌≡◌};
ghost use Rattle.modelfile.specs.File.{read_file};
ghost use Rattle.modelfile.specs.Part.{PartAllows};

use crate::model::{empty_model, first_place, slot_of};
use crate::numbers::{Centre, wide};
use crate::records::{Said, body_length, read_record};
use modelfile::{Fault, Model, Reading, Refusal};

pub mod kinds; // kinds.rt: the kinds of record
mod model; // model.rt: where a record notes something, and tests of the model
pub mod numbers; // numbers.rt: centre and chain numbers with their ends
pub mod records; // records.rt: one record

fn reading(verdict: Result<(), Refusal>, m: Model) -> Reading
    ensures { result ≡ record { verdict = verdict; model = m } }
{
    Reading { verdict, model: m }
}

// The loop lends a record the bytes from its kind byte on, so that a record sees constant indices only. A `while`, since each record's own
// length leads on to the next one.
pub fn read_file(file: &[u8]) -> Reading
    ensures { result ≡ read_file file.now }
{
    let mut m = empty_model();
    let mut at = 0;
    while at < file.len() {
        let here = at;
        at = here + 1 + body_length(wide(file[here]));
        match read_record(&file[here..], here, m) {
            Ok(Said::Size(centres, chains)) => {
                m.centres = centres.n;
                m.chains = chains.n;
            }
            Ok(Said::Window(window)) => {
                let i = m.given;
                m.windows[i] = window;
                m.given = i + 1;
            }
            Ok(Said::Load(centre, chain, load)) => {
                let i = slot_of(centre, chain);
                m.loads[i] = load as u64;
                m.passed = i + 1;
            }
            Ok(Said::Leaf(centre)) => {
                let i = m.count;
                m.first = first_place(i, here, m.first);
                m.nodes[i] = centre.n;
                m.count = i + 1;
                m.trees += 1;
                m.placed[centre.n - Centre::FIRST] = 1;
            }
            Ok(Said::Join) => {
                let i = m.count;
                m.nodes[i] = 0;
                m.count = i + 1;
                m.trees -= 1;
            }
            Ok(Said::Last) => return reading(Ok(()), m),
            Err(r) => return reading(Err(r), m),
        }
    }
    reading(Err(Fault::Incomplete.at(at)), m)
}

// The caller's own bytes, from the first leaf up to the end record; the empty part where the file is refused.
pub fn tree_part(file: &[u8]) -> &[u8]
    ensures { PartAllows file.entry result }
{
    let reading = read_file(file);
    let m = reading.model;
    match reading.verdict {
        Ok(()) => &file[m.first..file.len() - 1],
        Err(_) => &file[0..0],
    }
}
