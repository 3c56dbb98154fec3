// A message of a ledger, read by value.
ghost use Rattle.std.specs.Prelude.{◌≡◌, ◌<◌, length};
ghost use Rattle.rules.specs.Ledger.{message_at};
ghost use Rattle.layout.specs.Fields.{topic_now};
ghost use Rattle.layout.specs.Placed.{TopicIn};
ghost use Rattle.topic.specs.Ids.{message_of};

use store::offsets::{
    BATCH_IN, ENTRY_IN, FIRST_BATCH_IN, HANDLE_IN, MESSAGE_IN, MESSAGE_WORDS, topic_at,
};

// A message by the words of its record. Its id stands as two of them: both readers of a message write these into the record of
// a push, and only an append, which is given two numbers, makes an id of them.
#[derive(Clone, Copy)]
pub struct StoredMessage {
    pub ledger: u64,
    pub entry: u64,
    pub handle: u64,
    pub batch_size: u64,
}

// Message `k` of topic `t`.
pub fn load_message(store: &[u64], e: usize, t: usize, k: usize) -> StoredMessage
    requires { TopicIn e store.now t × (k < length (topic_now store.now t).messages) }
    ensures { message_of result.ledger result.entry result.handle result.batch_size ≡ message_at (topic_now store.now t).messages k }
{
    let at = topic_at(e, t) + MESSAGE_IN + k * MESSAGE_WORDS;
    StoredMessage {
        ledger: store[at],
        entry: store[at + ENTRY_IN],
        handle: store[at + HANDLE_IN],
        batch_size: store[at + BATCH_IN],
    }
}

// The batch size of message `k` of topic `t`.
pub fn batch_size(store: &[u64], e: usize, t: usize, k: usize) -> u64
    requires { TopicIn e store.now t × (k < length (topic_now store.now t).messages) }
    ensures { result ≡ (message_at (topic_now store.now t).messages k).batch_size }
{
    let at = topic_at(e, t);
    store[at + FIRST_BATCH_IN + k * MESSAGE_WORDS]
}
