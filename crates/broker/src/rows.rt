// A row of calls under one check: the store is checked, and the calls of a script are made on it one after the other.
ghost use Rattle.row.specs.Row.{RowLeft};

use check_state::spells;
use refusal::{Refusal, word_of};
use row_calls::make_row;

// Makes the calls of a script, each a kind, a count and as many words; each call's answer goes into its word of the answers,
// and the records of pushes one after the other into the list. The value is how many calls were made.
pub fn broker_calls(store: &mut [u64], script: &[u64], answers: &mut [u64], list: &mut [u64]) -> u64
    ensures { RowLeft store.old script.now answers.old list.old
        result store.new answers.new list.new }
{
    if !spells(store) {
        return word_of(Err(Refusal::NoState));
    }
    word_of(make_row(store, script, answers, list))
}
