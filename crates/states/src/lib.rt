// A second opinion on models: drawn ones, the bytes of their files, and their values as sums over states that are gone through one by one, with
// no coverage, tree or pair. The program `compare` holds the calls against it.
#![tactic(auto)]

pub mod draws; // draws.rt: models drawn by chance
pub mod edges; // edges.rt: the load at which a value reaches 2^64
pub mod files; // files.rt: the bytes of a model with a tree
pub mod model; // model.rt: what a model has
pub mod odometer; // odometer.rt: the sum over all states
pub mod table; // table.rt: the weights of each centre
pub mod values; // values.rt: the values due
