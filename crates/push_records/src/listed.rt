// Push with a lent list of dispatches. The flat push runs into a flat list that is lent beside it, with
// room for as many records as both hold; then the list is filled from the flat records. The push for C
// writes flat words, and there is no heap to put them in.
ghost use Rattle.std.specs.Prelude.{◌≡◌, length, replicate};
ghost use Rattle.rules.specs.Calls.Call.{Push};
ghost use Rattle.layout.specs.Calls.{outcome, answer, after, list_after};
ghost use Rattle.push_records.specs.Listed.{room, listed, no_dispatch};

use super::fill::fill;
use broker::broker_push;
use record::{Dispatch, RECORD_WORDS};
use told::made_in;

// How many dispatches fit into a flat list of so many words and a list of so many records.
fn room(words: usize, records: usize) -> usize
    ensures { result ≡ room words records }
{
    (words / RECORD_WORDS).min(records)
}

// The flat push into as much of a flat list as a list of so many records can take.
fn push_flat(store: &mut [u64], flat: &mut [u64], records: usize) -> u64
    ensures answer { result ≡ answer store.old (Push (room (length flat.old) records)) }
    ensures words { store.new ≡ after store.old (Push (room (length flat.old) records)) }
    ensures records { flat.new ≡ list_after flat.old
        (outcome store.old (Push (room (length flat.old) records))) }
{
    let end = room(flat.len(), records) * RECORD_WORDS;
    broker_push(store, &mut flat[..end])
}

// Push into a list of dispatches, over a flat list for its words. The answer and the store are those of the
// flat push; the list has the dispatches of the rules' own outcome. 15 is given where more are due than the
// smaller of the two rooms, a thirteenth of the flat words and the list's length. With a refusal nothing changes.
fn push_records(store: &mut [u64], flat: &mut [u64], list: &mut [Dispatch]) -> u64
    ensures answer { result ≡ answer store.old (Push (room (length flat.old) (length list.old))) }
    ensures words { store.new ≡ after store.old (Push (room (length flat.old) (length list.old))) }
    ensures flat { flat.new ≡ list_after flat.old
        (outcome store.old (Push (room (length flat.old) (length list.old)))) }
    ensures records { list.new ≡ listed
        (outcome store.old (Push (room (length flat.old) (length list.old)))) list.old }
{
    let answer = push_flat(store, flat, list.len());
    fill(list, flat, made_in(answer) as usize);
    answer
}

// A push's answer and its dispatches, by value.
#[derive(Clone, Copy)]
pub struct Listed {
    pub answer: u64,
    pub list: [Dispatch; 64],
}

// A dispatch of nothing.
#[tactic(auto, unfolding(crate::specs::Listed::no_dispatch))]
fn no_dispatch() -> Dispatch
    ensures { result ≡ no_dispatch }
{
    Dispatch::default()
}

// Push into a list of 64 dispatches that is handed back by value, for callers that lend none.
pub fn push_listed(store: &mut [u64], flat: &mut [u64]) -> Listed
    ensures answer { result.answer ≡ answer store.old (Push (room (length flat.old) 64)) }
    ensures words { store.new ≡ after store.old (Push (room (length flat.old) 64)) }
    ensures flat { flat.new ≡ list_after flat.old
        (outcome store.old (Push (room (length flat.old) 64))) }
    ensures records { result.list ≡ listed (outcome store.old (Push (room (length flat.old) 64))) (replicate 64 no_dispatch) }
{
    let mut list = [no_dispatch(); 64];
    let answer = push_records(store, flat, &mut list);
    Listed { answer, list }
}
