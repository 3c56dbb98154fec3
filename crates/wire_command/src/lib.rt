// The reader of the six commands that a terminal sends, over the bytes of a BaseCommand: one function for each message, the choice
// by type, the command's eight words, and the ids laid into a lent list. What is not right is refused before anything is written.
#![tactic(auto)]

pub mod command;
pub mod command_type;
pub mod content;
pub mod eight_words;
pub mod ids;
pub mod in_numbers;
pub mod numbers;
pub mod read;
pub mod seek;
pub mod subscribe;
