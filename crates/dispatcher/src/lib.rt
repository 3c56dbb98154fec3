// The dispatcher of a shared subscription in a store.
#![tactic(auto)]

pub mod completion;
pub mod flight;
pub mod make;
pub mod marks;
pub mod numbers;
pub mod outside;
pub mod queue;
pub mod returns;
pub mod ring;
pub mod table;
pub mod total;
