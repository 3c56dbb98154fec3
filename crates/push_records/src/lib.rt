// Push with a lent list of dispatch records: the flat push, and then its records filled in.
#![tactic(auto)]

mod fill;
pub mod listed;
