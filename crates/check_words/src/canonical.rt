// Whether words are spelt as the layout has them: counts within their lists' room, flags 0 or 1,
// and every word past a count or reserved 0. Each function tests one record or table, and equals
// `canonical` of its codec, over words that begin where it stands. Nothing here asks whether the state is a valid one.
ghost use Rattle.std.specs.Prelude.{◌≡◌, ℕ, Bool, ◌+◌, ◌*◌, ◌≤◌, ◌<◌, length, drop};
ghost use Rattle.words.specs.Codec.{upto};
ghost use Rattle.words.specs.Store.{canonical};
ghost use Rattle.layout.specs.Records.{consumer_codec, topic_codec, dispatcher_codec, mark_codec};
ghost use Rattle.layout.specs.Layout.{body_codec};
ghost use Rattle.layout.specs.Offsets.{consumer_count_at, consumer_words, topic_count_at, topic_words, dispatcher_count_at, dispatcher_words, reserved_at, needed_words};
ghost use Rattle.check_words.specs.Canonical.{list_canonical, table_canonical, lists_canonical};

use store::limits::{
    MOST_CONSUMERS, MOST_DISPATCHERS, MOST_NACKED, MOST_OUTSIDE, MOST_RING_IDS, MOST_TOPICS,
};
use store::offsets::{
    CONSUMER_COUNT_AT, CONSUMER_RESERVED_IN, CONSUMER_WORDS, DISPATCHER_COUNT_AT,
    DISPATCHER_RESERVED_IN, DISPATCHER_WORDS, DISPATCHER_WORDS_E, DISPATCHERS_AT_E, FLIGHT_IN,
    HELD_WORDS, ID_WORDS, KIND_IN, MARK_WORDS, MARKS_IN, MARKS_IN_E, MESSAGE_WORDS, MESSAGES_IN,
    NACKED_IN, NEEDED_WORDS, NEEDED_WORDS_E, OUTSIDE_IN, QUEUE_IN, RESERVED_AT, RESERVED_AT_E,
    RING_IN, TOPIC_COUNT_AT, TOPIC_RESERVED_IN, TOPIC_WORDS, TOPIC_WORDS_E, consumer_at,
    dispatcher_at, topic_at,
};
use store::stretch::{is_blank, word};

// A list whose elements are any words: its count is at most `most`, and the slots past it, of
// `width` words each, are 0.
fn list_canonical(list: &[u64], most: usize, width: usize) -> bool
    requires { 1 + most * width ≤ length list.now }
    ensures { result ≡ list_canonical list.now most width }
{
    let n = word(list, 0);
    n <= most && is_blank(&list[1 + n * width..], 0, (most - n) * width)
}

// A table: a list in whose slots not any words may stand. Each slot that it counts passes a test. The words past the count
// come last, since all of the room may lie there: a wrong slot is told before they are read. How many they are is computed
// before the loop: after it, `is_blank` took 25 instructions for 23 for sixteen words.
fn table_canonical<F: Fn(usize) -> bool>(list: &[u64], most: usize, width: usize, slot: F) -> bool
    requires room { 1 + most * width ≤ length list.now }
    requires slots { (i : ℕ) → i < most → F.pre slot i }
    ensures { (right : ℕ → Bool) → ((i : ℕ) (r : Bool) → i < most → F.post slot i r → r ≡ right i)
        → result ≡ table_canonical list.now most width right }
{
    let n = word(list, 0);
    if most < n {
        return false;
    }
    let left = (most - n) * width;
    for i in 0..n {
        if !slot(i) {
            return false;
        }
    }
    is_blank(&list[1 + n * width..], 0, left)
}

// A consumer: its kind is a flag, its nacked list is in order, the reserved word is 0.
fn consumer_canonical(words: &[u64]) -> bool
    requires { consumer_words ≤ length words.now }
    ensures { result ≡ canonical consumer_codec words.now }
{
    words[KIND_IN] <= 1
        && list_canonical(&words[NACKED_IN..], MOST_NACKED, 1)
        && words[CONSUMER_RESERVED_IN] == 0
}

// The table of consumers.
fn consumers_canonical(store: &[u64]) -> bool
    requires { topic_count_at ≤ length store.now }
    ensures { result ≡ canonical (upto consumer_codec 32) (drop consumer_count_at store.now) }
{
    table_canonical(
        &store[CONSUMER_COUNT_AT..],
        MOST_CONSUMERS,
        CONSUMER_WORDS,
        |i| consumer_canonical(&store[consumer_at(i)..]),
    )
}

// A topic: the reserved words are 0, its messages are in order.
fn topic_canonical(words: &[u64], e: usize) -> bool
    requires { topic_words e ≤ length words.now }
    ensures { result ≡ canonical (topic_codec e) words.now }
{
    is_blank(words, TOPIC_RESERVED_IN, MESSAGES_IN)
        && list_canonical(&words[MESSAGES_IN..], e, MESSAGE_WORDS)
}

// The table of topics.
fn topics_canonical(store: &[u64], e: usize) -> bool
    requires { (e ≤ 4096) × (dispatcher_count_at e ≤ length store.now) }
    ensures { result ≡ canonical (upto (topic_codec e) 8) (drop topic_count_at store.now) }
{
    let width = TOPIC_WORDS + TOPIC_WORDS_E * e;
    table_canonical(&store[TOPIC_COUNT_AT..], MOST_TOPICS, width, |i| {
        topic_canonical(&store[topic_at(e, i)..], e)
    })
}

// A dispatcher's marks: each complete word is a flag, the slots past the count are 0.
fn marks_canonical(list: &[u64], e: usize) -> bool
    requires { 1 + e * 6 ≤ length list.now }
    ensures { result ≡ canonical (upto mark_codec e) list.now }
{
    table_canonical(list, e, MARK_WORDS, |i| list[1 + i * MARK_WORDS] <= 1)
}

// A dispatcher's four lists of plain words: ring, outside ids, queue, entries in flight.
fn lists_canonical(words: &[u64], e: usize) -> bool
    requires { dispatcher_words e ≤ length words.now }
    ensures { result ≡ lists_canonical words.now e }
{
    list_canonical(&words[RING_IN..], MOST_RING_IDS, 1)
        && list_canonical(&words[OUTSIDE_IN..], MOST_OUTSIDE, ID_WORDS)
        && list_canonical(&words[QUEUE_IN..], e, 1)
        && list_canonical(&words[FLIGHT_IN + e..], e, HELD_WORDS)
}

// A dispatcher: the reserved words are 0, its lists and marks are in order.
fn dispatcher_canonical(words: &[u64], e: usize) -> bool
    requires { dispatcher_words e ≤ length words.now }
    ensures { result ≡ canonical (dispatcher_codec e) words.now }
{
    is_blank(words, DISPATCHER_RESERVED_IN, RING_IN)
        && lists_canonical(words, e)
        && marks_canonical(&words[MARKS_IN + MARKS_IN_E * e..], e)
}

// The table of dispatchers.
fn dispatchers_canonical(store: &[u64], e: usize) -> bool
    requires { (e ≤ 4096) × (reserved_at e ≤ length store.now) }
    ensures { result ≡ canonical (upto (dispatcher_codec e) 8) (drop (dispatcher_count_at e) store.now) }
{
    let count = DISPATCHER_COUNT_AT + DISPATCHERS_AT_E * e;
    let width = DISPATCHER_WORDS + DISPATCHER_WORDS_E * e;
    table_canonical(&store[count..], MOST_DISPATCHERS, width, |i| {
        dispatcher_canonical(&store[dispatcher_at(e, i)..], e)
    })
}

// The body of a store of `e` entries: its tables are in order, the reserved words are 0.
pub fn body_canonical(store: &[u64], e: usize) -> bool
    requires { (e ≤ 4096) × (needed_words e ≤ length store.now) }
    ensures { result ≡ canonical (body_codec e) (drop consumer_count_at store.now) }
{
    consumers_canonical(store)
        && topics_canonical(store, e)
        && dispatchers_canonical(store, e)
        && is_blank(
            store,
            RESERVED_AT + RESERVED_AT_E * e,
            NEEDED_WORDS + NEEDED_WORDS_E * e,
        )
}
