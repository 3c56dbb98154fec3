// A row of calls: the script is read whole before the first call is made, so that a row that is refused changes nothing; then
// its calls are made one after the other. The store is not checked: the caller knows that it spells a state, and every call
// leaves it so.
#![tactic(auto)]

ghost use Rattle.std.specs.Prelude.{◌≡◌, true, ◌≤◌, length};
ghost use Rattle.layout.specs.Layout.{spells};
ghost use Rattle.refusal.specs.Words.{word_of};
ghost use Rattle.trace.specs.Calls.{kind_of};
ghost use Rattle.trace_form.specs.Calls.{as_call};
ghost use Rattle.row.specs.Row.{RowLeft};
ghost use Rattle.row_script.specs.Left.{calls_in};
ghost use Rattle.row_calls.specs.Rows.{words_filled, MadeAll};

use record::RECORD_WORDS;
use refusal::{Answer, Refusal, word_of};
use row_script::calls::Calls;
use row_script::count_calls;
use told::dispatches;
use trace_call::answer_call;
use trace_form::Call;
use trace_kind::Command;

// How many words of its list a call filled, by its answer.
fn words_filled(call: Call, answer: Answer) -> usize
    ensures { result ≡ words_filled (kind_of (as_call 0 call.entry)) (word_of answer) }
{
    match call {
        Call::Push => dispatches(Command::Push, answer) as usize * RECORD_WORDS,
        _ => 0,
    }
}

// Makes the calls of a script and writes their answers; each push is given what is left of the list.
fn make_calls(store: &mut [u64], calls: Calls, answers: &mut [u64], list: &mut [u64])
    requires { (spells store.old ≡ true) × (length (calls_in calls) ≤ length answers.old) }
    ensures { MadeAll store.old answers.old list.old (calls_in calls.entry)
        store.new answers.new list.new }
{
    let mut from = 0;
    for (i, call) in calls.enumerate() {
        let answer = answer_call(store, call, &mut list[from..]);
        answers[i] = word_of(answer);
        from += words_filled(call, answer);
    }
}

// Makes a row of calls. 18 if a record of the script is no call. 64, with the number of calls, if there are more of them than
// words for answers. The value is the number of calls made.
pub fn make_row(store: &mut [u64], script: &[u64], answers: &mut [u64], list: &mut [u64]) -> Answer
    requires { spells store.old ≡ true }
    ensures { RowLeft store.old script.now answers.old list.old
        (word_of result) store.new answers.new list.new }
{
    let calls = count_calls(script)?;
    if answers.len() < calls {
        return Err(Refusal::AnswersShort(calls as u64));
    }
    make_calls(store, Calls { script }, answers, list);
    Ok(calls as u64)
}
