// Whether the topics that a store spells are valid: numbers distinct, each a byte, each topic with
// an entry, batch sizes at most 256, and no id twice in a ledger. The store is spelt as it should
// be, so that counts are within their room; every word is below 2^64.
#![tactic(auto)]

pub mod valid_topics;

ghost use Rattle.std.specs.Prelude.{◌≡◌, ◌&&◌, map, ◌+◌, ◌*◌, ◌≤◌, eqb, length};
ghost use Rattle.rules.specs.Table.{all, distinct};
ghost use Rattle.rules.specs.State.{Topic};
ghost use Rattle.rules.specs.Valid.{valid_topic};
ghost use Rattle.layout.specs.Layout.{decode};
ghost use Rattle.layout.specs.Canon.{CanonStore};
ghost use Rattle.layout.specs.Placed.{TopicIn};
ghost use Rattle.check_rows.specs.Below.{each_below};
ghost use Rattle.check_topics.specs.Orders.{batch_right, messages_ascend, messages_distinct, topic_order};
ghost use Rattle.check_topics.specs.Ledgers.{Ordered};

use check_rows::{PairRows, Rows};
use store::limits::{MOST_BATCH, MOST_NUMBER, MOST_TOPICS};
use store::offsets::{
    BATCH_IN, ENTRY_IN, MESSAGE_IN, MESSAGE_WORDS, MESSAGES_IN, TOPIC_COUNT_AT, topic_at,
};
use store::stretch::word;
use topic::table::find_topic;
use valid_topics::ValidTopics;

// Whether the n messages from `first` on have batch sizes of at most 256.
fn batches_right(store: &[u64], first: usize, n: usize) -> bool
    requires { first + n * 4 ≤ length store.now }
    ensures { result ≡ each_below (batch_right store.now first) n }
{
    (0..n).all(|m| store[first + m * MESSAGE_WORDS + BATCH_IN] <= MOST_BATCH)
}

// Whether the n messages from `first` on have batch sizes of at most 256 and no id twice, in whatever
// order they come.
#[tactic(auto, unfolding(crate::specs::Orders::messages_distinct))]
fn messages_distinct(store: &[u64], first: usize, n: usize) -> bool
    requires { first + n * 4 ≤ length store.now }
    ensures { result ≡ messages_distinct store.now first n }
{
    let rows = Rows {
        store,
        first,
        width: MESSAGE_WORDS,
        count: n,
    };
    let ids = PairRows {
        rows,
        ascend: false,
    };
    batches_right(store, first, n) && ids.pairs_distinct()
}

// Whether the n messages from `first` on, one at least, have batch sizes of at most 256 and ids that
// ascend: then they are valid, and no id is looked for. Most are of the same ledger as the last, which
// is asked first: `batches_right` and `pairs_ascend` made the check of a full store with E = 256 take
// 153,535 instructions for 135,120.
fn messages_ascend(store: &[u64], first: usize, n: usize) -> bool
    requires { (1 ≤ n) × (first + n * 4 ≤ length store.now) }
    ensures { result ≡ messages_ascend store.now first n }
{
    if MOST_BATCH < store[first + BATCH_IN] {
        return false;
    }
    let mut ledger = store[first];
    let mut entry = store[first + ENTRY_IN];
    for m in 1..n {
        let at = first + m * MESSAGE_WORDS;
        if MOST_BATCH < store[at + BATCH_IN] {
            return false;
        }
        let x = store[at];
        let y = store[at + ENTRY_IN];
        if x == ledger {
            if y <= entry {
                return false;
            }
        } else {
            if x < ledger {
                return false;
            }
            ledger = x;
        }
        entry = y;
    }
    true
}

// Whether the ids of topic t ascend, if it is valid.
fn topic_order(store: &[u64], e: usize, t: usize) -> Option<bool>
    requires { TopicIn e store.now t }
    ensures { result ≡ topic_order e store.now t }
{
    let at = topic_at(e, t);
    let n = word(store, at + MESSAGES_IN);
    if MOST_NUMBER < store[at] || n < 1 {
        return None;
    }
    let first = at + MESSAGE_IN;
    if messages_ascend(store, first, n) {
        return Some(true);
    }
    messages_distinct(store, first, n).then_some(false)
}

// The topics, if they are valid and their numbers distinct: each is found at its own slot.
pub fn topics_valid(store: &[u64], e: usize) -> Option<ValidTopics<'_>>
    requires { CanonStore e store.now }
    ensures { Ordered e store.now result
        (distinct eqb (map (λ (t : Topic). t.number) (decode store.now).topics)
        && all (valid_topic e) (decode store.now).topics) }
{
    let mut ascend = [false; MOST_TOPICS];
    let n = word(store, TOPIC_COUNT_AT);
    for t in 0..n {
        if find_topic(store, e, store[topic_at(e, t)]) < t {
            return None;
        }
        let known = topic_order(store, e, t)?;
        ascend[t] = known;
    }
    Some(ValidTopics { store, e, ascend })
}
