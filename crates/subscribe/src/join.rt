// A consumer that joins the ring of a pair. The pair's dispatcher is made first where it has none.
ghost use Rattle.std.specs.Prelude.{◌≡◌, false, ◌≤◌, ◌<◌, length};
ghost use Rattle.rules.specs.Table.{member};
ghost use Rattle.rules.specs.State.{by_pair, dispatcher, put_dispatcher};
ghost use Rattle.rules.specs.Commands.{joined};
ghost use Rattle.layout.specs.Layout.{decode};
ghost use Rattle.layout.specs.Canon.{CanonStore};
ghost use Rattle.layout.specs.Fields.{dispatcher_now, state_changed, dispatcher_changed};
ghost use Rattle.layout.specs.Placed.{DispatcherIn};
ghost use Rattle.store.specs.Find.{slot};
ghost use Rattle.subscribe.specs.Seats.{Joins};
ghost use Rattle.dispatcher.specs.Pairs.{pair_in};

use dispatcher::make::make_dispatcher;
use dispatcher::ring::{append_ring, find_ring};
use dispatcher::table::{Pair, dispatcher_count, find_dispatcher};
use topic::table::ledger_length;

// The consumer `id` joins the ring of a pair, if it is not in it yet.
pub(crate) fn join(store: &mut [u64], e: usize, pair: Pair, id: u64)
    requires { Joins e store.old id (pair_in pair) }
    ensures { store.new ≡ state_changed store.old
        (λ s. put_dispatcher s (joined id (dispatcher s (pair_in pair)))) }
{
    match find_dispatcher(store, e, pair) {
        Some(d) => join_ring(store, e, d, id),
        None => join_new(store, e, pair, id),
    }
}

// The consumer `id` joins the ring of dispatcher `d`, if it is not in it yet.
fn join_ring(store: &mut [u64], e: usize, d: usize, id: u64)
    requires { DispatcherIn e store.old d
        × (member id (dispatcher_now store.old d).attached ≡ false → length (dispatcher_now store.old d).attached < 32) }
    ensures { store.new ≡ dispatcher_changed store.old d (joined id) }
{
    if find_ring(store, e, d, id).is_none() {
        append_ring(store, e, d, id);
    }
}

// The consumer `id` joins the ring of a new dispatcher.
fn join_new(store: &mut [u64], e: usize, pair: Pair, id: u64)
    requires { CanonStore e store.old
        × (length (decode store.old).dispatchers ≤ slot by_pair (pair_in pair) (decode store.old).dispatchers)
        × (length (decode store.old).dispatchers < 8) }
    ensures { store.new ≡ state_changed store.old
        (λ s. put_dispatcher s (joined id (dispatcher s (pair_in pair)))) }
{
    let n = dispatcher_count(store, e);
    let entries = ledger_length(store, e, pair.topic);
    make_dispatcher(store, e, pair, entries);
    append_ring(store, e, n, id);
}
