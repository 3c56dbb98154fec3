// A row of calls as a line of the runner's input: `row`, how many words are lent for answers, how many
// records the list holds, then the words of the script. Where the row is done, each of its calls is
// printed as the call alone would be, with the records of a push under it. An error of a function here
// is that of a write.
#![tactic(auto)]

ghost use Rattle.std.specs.Prelude.{◌≡◌, ◌*◌, ◌/◌, ◌≤◌, min, length, drop, replicate, true, IfOk};
ghost use Rattle.rules.specs.Table.{is_some};
ghost use Rattle.row.specs.Script.{script_calls};
ghost use Rattle.row.specs.Row.{words_left};
ghost use Rattle.told.specs.Told.{dispatches_told};
ghost use Rattle.trace_kind.specs.Commands.{number_of};
ghost use Rattle.cases_rows.specs.Line.{row_line_after};

use broker::rows::broker_calls;
use cases_line::name::Name;
use cases_show::{show_outcome, show_records};
use record::RECORD_WORDS;
use row_script::calls::Calls;
use std::io;
use told::{dispatches_in, number_in};
use trace_form::command_of;
use trace_kind::Command;

// Makes the row of a line and prints what it gave; without the two numbers no row is made.
// What it leaves in the store, it leaves also where a write failed.
pub fn replay_row(rt: &impl Print, store: &mut [u64], line: &[u64]) -> io::Result<()>
    ensures { store.new ≡ row_line_after store.old line.now }
{
    let [_, answers, records, script @ ..] = line else {
        return show_outcome(rt, Some(Name::Row), None);
    };
    let room = at_most_64(*records) * RECORD_WORDS;
    replay_script(rt, store, script, at_most_64(*answers), room)
}

// A number, or 64 where it is larger.
fn at_most_64(number: u64) -> usize
    ensures { result ≡ min number 64 }
{
    number.min(64) as usize
}

// Makes the row of a script with `a` words for answers and `room` words of a list. The runner calls what makers call, whose answer
// is one word: its refusals are told by number.
fn replay_script(
    rt: &impl Print,
    store: &mut [u64],
    script: &[u64],
    a: usize,
    room: usize,
) -> io::Result<()>
    requires { (a ≤ 64) × (room ≤ 832) }
    ensures { store.new ≡ words_left store.old script.now (replicate a 0) (replicate room 0) }
{
    let mut answers = [0u64; 64];
    let mut list = [0u64; 832];
    let answer = broker_calls(store, script, &mut answers[..a], &mut list[..room]);
    show_outcome(rt, Some(Name::Row), Some(answer))?;
    if number_in(answer) == 0 {
        return show_calls(rt, script, &answers, &list);
    }
    Ok(())
}

// The calls of a script, each a call, numbered from 1. The records of its pushes stand in the list one push after the other.
fn show_calls(rt: &impl Print, script: &[u64], answers: &[u64], list: &[u64]) -> io::Result<()>
    requires { is_some (script_calls script.now) ≡ true }
{
    let mut rest = list;
    for (i, (call, answer)) in (Calls { script }).zip(answers).enumerate() {
        let command = command_of(call);
        show_call(rt, i + 1, command, *answer)?;
        rest = show_pushed(rt, command, *answer, rest)?;
    }
    Ok(())
}

// A line: a call's number, and what it gave.
fn show_call(rt: &impl Print, number: usize, command: Command, answer: u64) -> io::Result<()> {
    print!(rt; "  {number}: ")?;
    show_outcome(rt, Some(Name::Call(command)), Some(answer))
}

// The records of a call, which stand at the start of a list if it is a push that was done; answers what stands
// behind them.
fn show_pushed<'a>(
    rt: &impl Print,
    command: Command,
    answer: u64,
    list: &'a [u64],
) -> io::Result<&'a [u64]>
    ensures { IfOk result (λ rest. rest.now
        ≡ drop (min (dispatches_told (number_of command) answer) (length list.now / 13) * 13) list.now) }
{
    show_records(rt, list, dispatches_in(u64::from(command), answer))
}
