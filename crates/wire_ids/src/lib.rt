// The ids of an Ack or a Redeliver, in two passes: first they are tested and their words counted, then they are laid into a
// lent list as document 01's groups. So a refusal has written nothing.
#![tactic(auto)]

pub mod id;
pub mod lay;
pub mod size;
