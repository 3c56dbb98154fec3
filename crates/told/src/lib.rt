// What the word of an answer tells: the number of its refusal, its value, and the dispatches of a push.
#![tactic(auto)]

ghost use Rattle.std.specs.Prelude.{◌≡◌};
ghost use Rattle.rules.specs.Calls.{number_in, value_in};
ghost use Rattle.trace_kind.specs.Commands.{number_of};
ghost use Rattle.refusal.specs.Words.{word_of};
ghost use Rattle.told.specs.Told.{made_told, dispatches_told};

use refusal::{Answer, NUMBERS, word_of};
use trace_kind::Command;

// The refusal's number in the word of an answer, 0 of what is done.
pub fn number_in(word: u64) -> u64
    ensures { result ≡ number_in word }
{
    word % NUMBERS
}

// The value in the word of an answer.
pub fn value_in(word: u64) -> u64
    ensures { result ≡ value_in word }
{
    word / NUMBERS
}

// How many dispatches the word of a push's answer tells of: a push that is done answers their number.
#[tactic(auto, unfolding(crate::specs::Told::made_told))]
pub fn made_in(word: u64) -> u64
    ensures { result ≡ made_told word }
{
    if number_in(word) == 0 {
        value_in(word)
    } else {
        0
    }
}

// How many dispatches the word of an answer tells of, by the kind of its call: only a push makes any. The kind is a number, as
// the records and scripts that calls are read from have it.
pub fn dispatches_in(kind: u64, word: u64) -> u64
    ensures { result ≡ dispatches_told kind word }
{
    if kind == u64::from(Command::Push) {
        made_in(word)
    } else {
        0
    }
}

// How many dispatches an answer tells of. Its word is asked, since the value is told modulo 2^56, a limit that `refusal` keeps to itself.
pub fn dispatches(command: Command, answer: Answer) -> u64
    ensures { result ≡ dispatches_told (number_of command) (word_of answer) }
{
    dispatches_in(u64::from(command), word_of(answer))
}
