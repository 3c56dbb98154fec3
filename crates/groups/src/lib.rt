// The lent list of an ack or a redeliver, read in code: whether it has the form of groups, and its groups one after the
// other. Nothing is copied out of the list.
#![tactic(auto)]

pub mod group;
pub mod list;
