// A message of a topic by its id: its position, or the first position at or after the id.
ghost use Rattle.std.specs.Prelude.{◌≡◌, ◌+◌, ◌<◌, length};
ghost use Rattle.rules.specs.Ledger.{seek_position, message_at};
ghost use Rattle.layout.specs.Fields.{topic_now};
ghost use Rattle.layout.specs.Placed.{TopicIn};
ghost use Rattle.store.specs.Found.{found};
ghost use Rattle.topic.specs.Ids.{id_at, by_message_id};

use super::table::message_count;
use message_id::Id;
use search::first_row;
use store::offsets::{ENTRY_IN, MESSAGE_IN, MESSAGE_WORDS, topic_at};

// The id at an offset.
pub fn id_at(store: &[u64], at: usize) -> Id
    requires { at + 1 < length store.now }
    ensures { result ≡ id_at store.now at }
{
    Id {
        ledger: store[at],
        entry: store[at + ENTRY_IN],
    }
}

// The id of message `k` of topic `t`.
fn id_of_message(store: &[u64], e: usize, t: usize, k: usize) -> Id
    requires { TopicIn e store.now t × (k < length (topic_now store.now t).messages) }
    ensures { result ≡ (message_at (topic_now store.now t).messages k).id }
{
    let at = topic_at(e, t);
    id_at(store, at + MESSAGE_IN + k * MESSAGE_WORDS)
}

// The position of an id in the ledger of topic `t`.
pub fn position_of(store: &[u64], e: usize, t: usize, id: Id) -> Option<usize>
    requires { TopicIn e store.now t }
    ensures { result ≡ found by_message_id id (topic_now store.now t).messages }
{
    first_row(message_count(store, e, t), |k| {
        id == id_of_message(store, e, t, k)
    })
}

// The first position in the ledger of topic `t` whose id is an id or greater; where there is none the one past the last, at
// which a cursor has read all.
pub fn first_at_or_after(store: &[u64], e: usize, t: usize, id: Id) -> usize
    requires { TopicIn e store.now t }
    ensures { result ≡ seek_position id (topic_now store.now t).messages }
{
    let n = message_count(store, e, t);
    first_row(n, |k| id <= id_of_message(store, e, t, k)).unwrap_or(n)
}
