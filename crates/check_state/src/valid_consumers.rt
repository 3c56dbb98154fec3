// Whether the consumers that a store spells are valid: ids ascending, topic and subscription bytes,
// permits in their range, cursor and nacked positions in the ledger, a shared one in its ring. The
// store is spelt as it should be, so that counts are within their room.
ghost use Rattle.std.specs.Prelude.{◌≡◌, true, ◌&&◌, ltb, take};
ghost use Rattle.rules.specs.Table.{all};
ghost use Rattle.rules.specs.State.{Consumer};
ghost use Rattle.rules.specs.Valid.{ascending, valid_consumer};
ghost use Rattle.layout.specs.Layout.{decode};
ghost use Rattle.layout.specs.Canon.{CanonStore};
ghost use Rattle.layout.specs.Fields.{consumer_now};
ghost use Rattle.layout.specs.Placed.{ConsumerIn};
ghost use Rattle.check_state.specs.ValidConsumers.{numbers_valid, nacked_valid, places_valid, attached_valid};

use check_rows::Rows;
use command_parts::Kind;
use dispatcher::table::{Pair, in_ring};
use store::limits::MOST_NUMBER;
use store::offsets::{
    CONSUMER_COUNT_AT, CONSUMER_CURSOR_IN, CONSUMER_SUBSCRIPTION_IN, CONSUMER_TOPIC_IN, KIND_IN,
    NACKED_IN, NACKED_LIST_IN, PERMITS_IN, consumer_at,
};
use store::permits::{LEAST_PERMITS, MOST_PERMITS};
use store::stretch::word;
use topic::table::ledger_length;

// Whether consumer i's topic and subscription are bytes and its permits in range.
fn numbers_valid(store: &[u64], e: usize, i: usize) -> bool
    requires { ConsumerIn e store.now i }
    ensures { result ≡ numbers_valid (consumer_now store.now i) }
{
    let at = consumer_at(i);
    store[at + CONSUMER_TOPIC_IN] <= MOST_NUMBER
        && store[at + CONSUMER_SUBSCRIPTION_IN] <= MOST_NUMBER
        && LEAST_PERMITS <= store[at + PERMITS_IN]
        && store[at + PERMITS_IN] <= MOST_PERMITS
}

// Whether each nacked position of consumer i is below n.
fn nacked_valid(store: &[u64], e: usize, i: usize, n: usize) -> bool
    requires { ConsumerIn e store.now i }
    ensures { result ≡ nacked_valid n (consumer_now store.now i) }
{
    let at = consumer_at(i);
    let nacked = Rows {
        store,
        first: at + NACKED_LIST_IN,
        width: 1,
        count: word(store, at + NACKED_IN),
    };
    (0..nacked.count).all(|j| (nacked.word(j) as usize) < n)
}

// Whether consumer i's cursor and nacked positions are in its topic's ledger.
fn places_valid(store: &[u64], e: usize, i: usize) -> bool
    requires { ConsumerIn e store.now i }
    ensures { result ≡ places_valid (decode store.now) (consumer_now store.now i) }
{
    let at = consumer_at(i);
    let n = ledger_length(store, e, store[at + CONSUMER_TOPIC_IN]);
    word(store, at + CONSUMER_CURSOR_IN) <= n && nacked_valid(store, e, i, n)
}

// Whether consumer i, if it is a shared one, is in its dispatcher's ring.
fn attached_valid(store: &[u64], e: usize, i: usize) -> bool
    requires { ConsumerIn e store.now i }
    ensures { result ≡ attached_valid (decode store.now) (consumer_now store.now i) }
{
    let at = consumer_at(i);
    let pair = Pair::at(store, at + CONSUMER_TOPIC_IN);
    match Kind::from(store[at + KIND_IN]) {
        Kind::Plain => true,
        Kind::Shared => in_ring(store, e, pair, store[at]),
    }
}

// Whether consumer i is valid.
fn consumer_valid(store: &[u64], e: usize, i: usize) -> bool
    requires { ConsumerIn e store.now i }
    ensures { result ≡ valid_consumer (decode store.now) (consumer_now store.now i) }
{
    numbers_valid(store, e, i) && places_valid(store, e, i) && attached_valid(store, e, i)
}

// Whether consumer i's id is above those of all before it, which ascend: it is if it is above the
// last of them.
fn id_ascends(store: &[u64], e: usize, i: usize) -> bool
    requires { ConsumerIn e store.now i × (ascending (take i (decode store.now).consumers) ≡ true) }
    ensures { result ≡ all (λ (c : Consumer). ltb c.id (consumer_now store.now i).id)
        (take i (decode store.now).consumers) }
{
    if i == 0 {
        return true;
    }
    store[consumer_at(i - 1)] < store[consumer_at(i)]
}

// Whether the consumers are valid and their ids ascend.
pub(crate) fn consumers_valid(store: &[u64], e: usize) -> bool
    requires { CanonStore e store.now }
    ensures { result ≡ (ascending (decode store.now).consumers
        && all (valid_consumer (decode store.now)) (decode store.now).consumers) }
{
    let n = word(store, CONSUMER_COUNT_AT);
    for i in 0..n {
        if !id_ascends(store, e, i) {
            return false;
        }
        if !consumer_valid(store, e, i) {
            return false;
        }
    }
    true
}
