// Whether words are spelt as the layout has them: the first half of the check that every call on a store but opening makes.
#![tactic(auto)]

pub mod canonical;
pub mod header;
