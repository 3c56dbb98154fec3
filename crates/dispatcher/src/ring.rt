// The ids of the consumers that are attached to a dispatcher, in attach order. Each has one word.
ghost use Rattle.std.specs.Prelude.{◌≡◌, ◌++◌, ◌∷◌, [], ◌+◌, ◌≤◌, ◌<◌, length, get_or, take, drop};
ghost use Rattle.rules.specs.Dispatcher.{with_attached};
ghost use Rattle.layout.specs.Fields.{dispatcher_now, dispatcher_changed};
ghost use Rattle.layout.specs.Placed.{DispatcherIn};
ghost use Rattle.store.specs.Found.{found};
ghost use Rattle.dispatcher.specs.Held.{by_value};
ghost use Rattle.dispatcher.specs.Lists.{ring_list};

use search::first_row;
use store::counted::Counted;
use store::offsets::{RING_IDS_IN, RING_IN, dispatcher_at};

// The ring ids of dispatcher `d`, as a list in a store.
fn ring_list(e: usize, d: usize) -> Counted
    requires { (e ≤ 4096) × (d ≤ 8) }
    ensures { result ≡ ring_list e d }
{
    let at = dispatcher_at(e, d);
    Counted {
        count_at: at + RING_IN,
        first: at + RING_IDS_IN,
        width: 1,
    }
}

// The number of ring ids of dispatcher `d`.
pub fn ring_count(store: &[u64], e: usize, d: usize) -> usize
    requires { DispatcherIn e store.now d }
    ensures { result ≡ length (dispatcher_now store.now d).attached }
{
    ring_list(e, d).count(store)
}

// Ring id `j` of dispatcher `d`.
pub fn ring_id(store: &[u64], e: usize, d: usize, j: usize) -> u64
    requires { DispatcherIn e store.now d × (j < length (dispatcher_now store.now d).attached) }
    ensures { result ≡ get_or (dispatcher_now store.now d).attached j 0 }
{
    let at = dispatcher_at(e, d);
    store[at + RING_IDS_IN + j]
}

// The slot of `id` in the ring of dispatcher `d`.
pub fn find_ring(store: &[u64], e: usize, d: usize, id: u64) -> Option<usize>
    requires { DispatcherIn e store.now d }
    ensures { result ≡ found by_value id (dispatcher_now store.now d).attached }
{
    first_row(ring_count(store, e, d), |j| id == ring_id(store, e, d, j))
}

// Ring id `j` of dispatcher `d` is left out; those after it keep their order.
pub fn remove_ring(store: &mut [u64], e: usize, d: usize, j: usize)
    requires { DispatcherIn e store.old d × (j < length (dispatcher_now store.old d).attached) }
    ensures { store.new ≡ dispatcher_changed store.old d
        (λ x. with_attached x (take j x.attached ++ drop (j + 1) x.attached)) }
{
    ring_list(e, d).remove(store, j);
}

// `id` goes to the end of the ring of dispatcher `d`.
pub fn append_ring(store: &mut [u64], e: usize, d: usize, id: u64)
    requires { DispatcherIn e store.old d × (length (dispatcher_now store.old d).attached < 32) }
    ensures { store.new ≡ dispatcher_changed store.old d (λ x. with_attached x (x.attached ++ id ∷ [])) }
{
    ring_list(e, d).push(store, [id]);
}
