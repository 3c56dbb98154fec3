// The table of dispatchers: their number, the one of a pair, whether an id is in a pair's ring.
ghost use Rattle.std.specs.Prelude.{◌≡◌, ◌+◌, ◌≤◌, ◌<◌, length};
ghost use Rattle.rules.specs.Table.{member};
ghost use Rattle.rules.specs.State.{by_pair, same_pair, dispatcher};
ghost use Rattle.layout.specs.Layout.{decode};
ghost use Rattle.layout.specs.Canon.{CanonStore};
ghost use Rattle.layout.specs.Fields.{dispatcher_now};
ghost use Rattle.layout.specs.Placed.{DispatcherIn};
ghost use Rattle.store.specs.Found.{found};
ghost use Rattle.dispatcher.specs.Lists.{dispatcher_list};
ghost use Rattle.dispatcher.specs.Pairs.{pair_in, pair_at};

use super::ring::find_ring;
use search::first_row;
use store::counted::Counted;
use store::offsets::{
    DISPATCHER_COUNT_AT, DISPATCHER_WORDS, DISPATCHER_WORDS_E, DISPATCHERS_AT, DISPATCHERS_AT_E,
    SUBSCRIPTION_IN, dispatcher_at,
};

// The dispatchers, as a list in a store.
pub(crate) fn dispatcher_list(e: usize) -> Counted
    requires { e ≤ 4096 }
    ensures { result ≡ dispatcher_list e }
{
    Counted {
        count_at: DISPATCHER_COUNT_AT + DISPATCHERS_AT_E * e,
        first: DISPATCHERS_AT + DISPATCHERS_AT_E * e,
        width: DISPATCHER_WORDS + DISPATCHER_WORDS_E * e,
    }
}

// The number of dispatchers.
pub fn dispatcher_count(store: &[u64], e: usize) -> usize
    requires { CanonStore e store.now }
    ensures { result ≡ length (decode store.now).dispatchers }
{
    dispatcher_list(e).count(store)
}

// A topic and a subscription to it, by their numbers.
#[derive(Clone, Copy, PartialEq, Eq)]
pub struct Pair {
    pub topic: u64,
    pub subscription: u64,
}

impl Pair {
    // The pair whose topic and subscription stand from `at` on.
    pub fn at(store: &[u64], at: usize) -> Self
        requires { at + 1 < length store.now }
        ensures { pair_in result ≡ pair_at store.now at }
    {
        Pair {
            topic: store[at],
            subscription: store[at + SUBSCRIPTION_IN],
        }
    }
}

// The pair of a dispatcher.
fn own_pair(store: &[u64], e: usize, d: usize) -> Pair
    requires { DispatcherIn e store.now d }
    ensures { pair_in result ≡ (dispatcher_now store.now d).pair }
{
    Pair::at(store, dispatcher_at(e, d))
}

// Whether a dispatcher is the one of a pair.
pub fn is_of_pair(store: &[u64], e: usize, d: usize, pair: Pair) -> bool
    requires { DispatcherIn e store.now d }
    ensures { result ≡ same_pair (pair_in pair) (dispatcher_now store.now d).pair }
{
    pair == own_pair(store, e, d)
}

// The slot of a pair's dispatcher.
pub fn find_dispatcher(store: &[u64], e: usize, pair: Pair) -> Option<usize>
    requires { CanonStore e store.now }
    ensures { result ≡ found by_pair (pair_in pair) (decode store.now).dispatchers }
{
    first_row(dispatcher_count(store, e), |d| {
        is_of_pair(store, e, d, pair)
    })
}

// Whether an id is in the ring of a pair's dispatcher; no id is where the pair has none.
pub fn in_ring(store: &[u64], e: usize, pair: Pair, id: u64) -> bool
    requires { CanonStore e store.now }
    ensures { result ≡ member id (dispatcher (decode store.now) (pair_in pair)).attached }
{
    let Some(d) = find_dispatcher(store, e, pair) else {
        return false;
    };
    find_ring(store, e, d, id).is_some()
}
