// The replay of the calls that stand on the input, one a line, on a store of 8,192 words. Each line is
// printed with what the call gave, and a push with its records; a line `row` makes a row of calls, a line
// `balance` asks for the balance check of each dispatcher, and one that begins with # is a heading.
ghost use Rattle.std.specs.Prelude.{◌≤◌, length};

use crate::balances::show_balances;
use cases_line::name::{Name, is_plain, is_start, name_of};
use cases_line::{read_line, word_or_zero, words_of};
use cases_rows::replay_row;
use cases_show::{show_outcome, show_records, show_twin};
use cases_twin::as_records;
use record::RECORD_WORDS;
use std::io;
use std::io::BufRead;
use told::{number_in, value_in};
use trace_kind::Command;

// The words of the runner's store, and the records and words of its list.
const STORE_WORDS: usize = 8192;

const MOST_RECORDS: u64 = 64;

const LIST_WORDS: usize = 64 * RECORD_WORDS;

// Replays the input to its end, or to an empty line. The turns are more than any input has lines, since
// a proved loop has to end.
pub(crate) fn replay(rt: &(impl Input + Print)) -> io::Result<()> {
    let mut input = rt.reader();
    let mut store = [0u64; STORE_WORDS];
    for turns in 0..u64::MAX {
        if !replay_line(rt, &mut input, &mut store)? {
            return Ok(());
        }
    }
    Ok(())
}

// Reads and replays one line, and answers whether there was one.
fn replay_line(
    rt: &impl Print,
    input: &mut impl BufRead,
    store: &mut [u64; STORE_WORDS],
) -> io::Result<bool> {
    let mut line = [0u8; 32768];
    let n = read_line(input, &mut line)?;
    if n == 0 {
        return Ok(false);
    }
    rt.write_all(&line[..n])?;
    if is_heading(&line[..n]) {
        println!(rt)?;
    } else {
        print!(rt; " = ")?;
        replay_call(rt, store, &line[..n])?;
    }
    Ok(true)
}

// Whether a line begins with #.
fn is_heading(line: &[u8]) -> bool {
    line.len() > 0 && line[0] == b'#'
}

// Makes the call of a line and prints what it gave. A word past the end of the line is read as 0.
fn replay_call(rt: &impl Print, store: &mut [u64; STORE_WORDS], line: &[u8]) -> io::Result<()> {
    let mut words = [0u64; 2048];
    let n = words_of(line, &mut words);
    let line = &words[..n];
    let name = name_of(word_or_zero(line, 0));
    match name {
        Some(Name::Call(Command::Push)) => replay_push(rt, store, line),
        Some(Name::Row) => replay_row(rt, store, line),
        Some(Name::Balance) => show_balances(rt, store),
        _ => show_outcome(rt, name, answer_of(store, name, line)),
    }
}

// A push with a list of the runner's 64 records, or of as many as the line says, and the same push into
// records on a copy of the store.
fn replay_push(rt: &impl Print, store: &mut [u64; STORE_WORDS], line: &[u64]) -> io::Result<()> {
    let mut twin = *store;
    let mut list = [0u64; LIST_WORDS];
    let room = room_of(line);
    let answer = push_into(rt, store, &mut list[..room])?;
    show_twin(rt, as_records(&mut twin, store, &list, room, answer))
}

// A push into a list. The runner calls what makers call, whose answer is one word: its refusals are told by number.
fn push_into(rt: &impl Print, store: &mut [u64], list: &mut [u64]) -> io::Result<u64> {
    let answer = broker::broker_push(store, list);
    show_outcome(rt, Some(Name::Call(Command::Push)), Some(answer))?;
    if number_in(answer) == 0 {
        show_records(rt, list, value_in(answer))?;
    }
    Ok(answer)
}

// How many words the list of a push has: those of as many records as its line says, 64 where it does not or says more.
fn room_of(line: &[u64]) -> usize
    ensures { result ≤ 832 }
{
    let records = line.get(1).copied().unwrap_or(MOST_RECORDS);
    records.min(MOST_RECORDS) as usize * RECORD_WORDS
}

// The answer of a call other than push; none where no call has the name, and of a list of groups without
// a consumer.
fn answer_of(store: &mut [u64], name: Option<Name>, line: &[u64]) -> Option<u64> {
    let word = |i| word_or_zero(line, i);
    match name? {
        Name::Open => Some(broker::broker_open(store, word(1), word(2), word(3))),
        Name::Call(Command::Append) => Some(append_answer(store, line)),
        Name::Call(Command::Subscribe) => Some(subscribe_answer(store, line)),
        Name::Call(Command::Flow) => {
            let grant = (word(2) % 4294967296) as u32;
            Some(broker::broker_flow(store, word(1), grant))
        }
        Name::Call(Command::Ack) if line.len() >= 2 => {
            Some(broker::broker_ack(store, line[1], &line[2..]))
        }
        Name::Call(Command::Seek) => Some(seek_answer(store, line)),
        Name::Call(Command::Redeliver) if line.len() >= 2 => {
            Some(broker::broker_redeliver(store, line[1], &line[2..]))
        }
        Name::Call(Command::Close) => Some(broker::broker_close(store, word(1))),
        _ => None,
    }
}

// The answer of an append.
fn append_answer(store: &mut [u64], line: &[u64]) -> u64 {
    let word = |i| word_or_zero(line, i);
    let topic = (word(1) % 256) as u8;
    broker::broker_append(store, topic, word(2), word(3), word(4), word(5))
}

// The answer of a subscribe. Makers give a kind by number.
fn subscribe_answer(store: &mut [u64], line: &[u64]) -> u64 {
    let word = |i| word_or_zero(line, i);
    let topic = (word(3) % 256) as u8;
    let subscription = (word(4) % 256) as u8;
    let kind = if is_plain(word(2)) { 0 } else { 1 };
    broker::broker_subscribe(store, word(1), kind, topic, subscription)
}

// The answer of a seek. Makers give a target by number.
fn seek_answer(store: &mut [u64], line: &[u64]) -> u64 {
    let word = |i| word_or_zero(line, i);
    if is_start(word(2)) {
        return broker::broker_seek(store, word(1), 0, 0, 0);
    }
    broker::broker_seek(store, word(1), 1, word(3), word(4))
}
