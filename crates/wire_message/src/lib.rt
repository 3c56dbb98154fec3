// The reader of Message: a BaseCommand of type 9 read into the 13 words of a dispatch's record.
#![tactic(auto)]

pub mod content;
pub mod message;
