// The tests of a subscribe, each as the rules have it. None of them writes.
ghost use Rattle.std.specs.Prelude.{◌≡◌, not, ◌&&◌, length, leb};
ghost use Rattle.rules.specs.Table.{is_some, member};
ghost use Rattle.rules.specs.State.{consumer_of, dispatcher_of, dispatcher};
ghost use Rattle.layout.specs.Layout.{decode};
ghost use Rattle.layout.specs.Canon.{CanonStore};
ghost use Rattle.dispatcher.specs.Pairs.{pair_in};

use consumer::lookup::find_consumer;
use consumer::table::consumer_count;
use dispatcher::ring::ring_count;
use dispatcher::table::{Pair, dispatcher_count, find_dispatcher, in_ring};
use store::limits::{MOST_CONSUMERS, MOST_DISPATCHERS, MOST_RING_IDS};
use store::offsets::NOOP_AT;

// Whether a subscribe of a live id does nothing.
fn is_noop(store: &[u64], e: usize) -> bool
    requires { CanonStore e store.now }
    ensures { result ≡ (decode store.now).live_id_subscribe_is_noop }
{
    store[NOOP_AT] == 1
}

// Whether an id is live.
pub(crate) fn is_live(store: &[u64], e: usize, id: u64) -> bool
    requires { CanonStore e store.now }
    ensures { result ≡ is_some (consumer_of (decode store.now) id) }
{
    find_consumer(store, e, id).is_some()
}

// Whether there is nothing to do.
pub(crate) fn is_idle(store: &[u64], e: usize, live: bool) -> bool
    requires { CanonStore e store.now }
    ensures { result ≡ live && (decode store.now).live_id_subscribe_is_noop }
{
    live && is_noop(store, e)
}

// Whether a consumer would be new, and 32 are live.
pub(crate) fn is_full(store: &[u64], e: usize, live: bool) -> bool
    requires { CanonStore e store.now }
    ensures { result ≡ not live && leb 32 (length (decode store.now).consumers) }
{
    !live && MOST_CONSUMERS <= consumer_count(store, e)
}

// Whether a pair would be new, and 8 exist.
pub(crate) fn pairs_full(store: &[u64], e: usize, pair: Pair) -> bool
    requires { CanonStore e store.now }
    ensures { result ≡ not (is_some (dispatcher_of (decode store.now) (pair_in pair)))
        && leb 8 (length (decode store.now).dispatchers) }
{
    find_dispatcher(store, e, pair).is_none() && MOST_DISPATCHERS <= dispatcher_count(store, e)
}

// Whether an id would be new in the ring of a pair, and that has 32.
pub(crate) fn ring_full(store: &[u64], e: usize, pair: Pair, id: u64) -> bool
    requires { CanonStore e store.now }
    ensures { result ≡ not (member id (dispatcher (decode store.now) (pair_in pair)).attached)
        && leb 32 (length (dispatcher (decode store.now) (pair_in pair)).attached) }
{
    if in_ring(store, e, pair, id) {
        return false;
    }
    let Some(d) = find_dispatcher(store, e, pair) else {
        return false;
    };
    MOST_RING_IDS <= ring_count(store, e, d)
}
