// The table of topics: their number, the slot of a topic by its number, the length of its ledger, and a topic made.
ghost use Rattle.std.specs.Prelude.{◌≡◌, ◌++◌, ◌∷◌, [], ◌≤◌, ◌<◌, length};
ghost use Rattle.rules.specs.State.{by_number, ledger_of, with_topics};
ghost use Rattle.layout.specs.Layout.{decode};
ghost use Rattle.layout.specs.Canon.{CanonStore};
ghost use Rattle.layout.specs.Fields.{zero_topic, topic_now, state_changed, topic_changed, with_number};
ghost use Rattle.layout.specs.Placed.{TopicIn};
ghost use Rattle.store.specs.Find.{slot};
ghost use Rattle.store.specs.Found.{found};
ghost use Rattle.topic.specs.Lists.{topic_list, message_list};

use search::first_row;
use store::counted::Counted;
use store::offsets::{
    MESSAGE_IN, MESSAGE_WORDS, MESSAGES_IN, TOPIC_COUNT_AT, TOPIC_WORDS, TOPIC_WORDS_E, TOPICS_AT,
    topic_at,
};

// The topics, as a list in a store.
fn topic_list(e: usize) -> Counted
    requires { e ≤ 4096 }
    ensures { result ≡ topic_list e }
{
    Counted {
        count_at: TOPIC_COUNT_AT,
        first: TOPICS_AT,
        width: TOPIC_WORDS + TOPIC_WORDS_E * e,
    }
}

// The messages of topic `t`, as a list in a store.
pub(crate) fn message_list(e: usize, t: usize) -> Counted
    requires { (e ≤ 4096) × (t ≤ 8) }
    ensures { result ≡ message_list e t }
{
    let at = topic_at(e, t);
    Counted {
        count_at: at + MESSAGES_IN,
        first: at + MESSAGE_IN,
        width: MESSAGE_WORDS,
    }
}

// The number of topics.
pub fn topic_count(store: &[u64], e: usize) -> usize
    requires { CanonStore e store.now }
    ensures { result ≡ length (decode store.now).topics }
{
    topic_list(e).count(store)
}

// The number of topic `t`.
fn topic_number(store: &[u64], e: usize, t: usize) -> u64
    requires { TopicIn e store.now t }
    ensures { result ≡ (topic_now store.now t).number }
{
    store[topic_at(e, t)]
}

// The slot of a topic that exists.
pub fn existing_topic(store: &[u64], e: usize, topic: u64) -> Option<usize>
    requires { CanonStore e store.now }
    ensures { result ≡ found by_number topic (decode store.now).topics }
{
    first_row(
        topic_count(store, e),
        |t| topic == topic_number(store, e, t),
    )
}

// The slot of a topic: where it stands, or where it is made if it does not exist.
pub fn find_topic(store: &[u64], e: usize, topic: u64) -> usize
    requires { CanonStore e store.now }
    ensures { result ≡ slot by_number topic (decode store.now).topics }
{
    existing_topic(store, e, topic).unwrap_or(topic_count(store, e))
}

// The number of entries of a topic; none where the topic does not exist.
pub fn ledger_length(store: &[u64], e: usize, topic: u64) -> usize
    requires { CanonStore e store.now }
    ensures { result ≡ length (ledger_of (decode store.now) topic) }
{
    let Some(t) = existing_topic(store, e, topic) else {
        return 0;
    };
    message_count(store, e, t)
}

// The number of messages of topic `t`.
pub fn message_count(store: &[u64], e: usize, t: usize) -> usize
    requires { TopicIn e store.now t }
    ensures { result ≡ length (topic_now store.now t).messages }
{
    message_list(e, t).count(store)
}

// The table, which has room, gains a topic at its end: the words there are 0 already.
pub fn raise_topics(store: &mut [u64], e: usize)
    requires { CanonStore e store.old × (length (decode store.old).topics < 8) }
    ensures { store.new ≡ state_changed store.old (λ s. with_topics s (s.topics ++ zero_topic ∷ [])) }
{
    topic_list(e).raise(store);
}

// Topic `t` gets another number.
pub fn set_number(store: &mut [u64], e: usize, t: usize, number: u64)
    requires { TopicIn e store.old t }
    ensures { store.new ≡ topic_changed store.old t (λ x. with_number x number) }
{
    let at = topic_at(e, t);
    store[at] = number;
}
