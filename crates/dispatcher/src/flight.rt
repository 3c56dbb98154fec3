// The entries of a dispatcher that its consumers hold, in dispatch order. Each has two words, its
// holder and its position.
ghost use Rattle.std.specs.Prelude.{◌≡◌, ◌++◌, ◌∷◌, [], ◌+◌, ◌≤◌, ◌<◌, length, set, take, drop};
ghost use Rattle.rules.specs.Dispatcher.{with_places};
ghost use Rattle.layout.specs.Fields.{dispatcher_now, dispatcher_changed};
ghost use Rattle.layout.specs.Placed.{DispatcherIn};
ghost use Rattle.store.specs.Found.{found};
ghost use Rattle.dispatcher.specs.Held.{held_of, held_now, by_hold};
ghost use Rattle.dispatcher.specs.Lists.{flight_list};

use search::first_row;
use store::counted::Counted;
use store::offsets::{FLIGHT_IN, HELD_IN, HELD_WORDS, POSITION_IN, dispatcher_at};
use store::stretch::word;

// What is in flight of dispatcher `d`, as a list in a store.
fn flight_list(e: usize, d: usize) -> Counted
    requires { (e ≤ 4096) × (d ≤ 8) }
    ensures { result ≡ flight_list e d }
{
    let at = dispatcher_at(e, d);
    Counted {
        count_at: at + FLIGHT_IN + e,
        first: at + HELD_IN + e,
        width: HELD_WORDS,
    }
}

// The number of entries in flight of dispatcher `d`.
pub fn flight_count(store: &[u64], e: usize, d: usize) -> usize
    requires { DispatcherIn e store.now d }
    ensures { result ≡ length (dispatcher_now store.now d).in_flight }
{
    flight_list(e, d).count(store)
}

// An entry in flight by value.
#[derive(Clone, Copy, PartialEq, Eq)]
pub struct Held {
    pub holder: u64,
    pub position: usize,
}

// The slot of `id`'s hold on position `k` of dispatcher `d`.
pub fn find_hold(store: &[u64], e: usize, d: usize, id: u64, k: usize) -> Option<usize>
    requires { DispatcherIn e store.now d }
    ensures { result ≡ found by_hold (held_of id k) (dispatcher_now store.now d).in_flight }
{
    let held = Held {
        holder: id,
        position: k,
    };
    first_row(flight_count(store, e, d), |j| {
        held == load_held(store, e, d, j)
    })
}

// Entry `j` in flight of dispatcher `d` is left out; those after it keep their order.
pub fn remove_flight(store: &mut [u64], e: usize, d: usize, j: usize)
    requires { DispatcherIn e store.old d × (j < length (dispatcher_now store.old d).in_flight) }
    ensures { store.new ≡ dispatcher_changed store.old d
        (λ x. with_places x x.redelivery (take j x.in_flight ++ drop (j + 1) x.in_flight)) }
{
    flight_list(e, d).remove(store, j);
}

// `id` holds position `k` of dispatcher `d`, after all that is in flight.
pub fn append_flight(store: &mut [u64], e: usize, d: usize, id: u64, k: usize)
    requires { DispatcherIn e store.old d × (length (dispatcher_now store.old d).in_flight < e) }
    ensures { store.new ≡ dispatcher_changed store.old d
        (λ x. with_places x x.redelivery (x.in_flight ++ held_of id k ∷ [])) }
{
    flight_list(e, d).push(store, [id, k as u64]);
}

// Entry `j` in flight of dispatcher `d`.
pub(crate) fn load_held(store: &[u64], e: usize, d: usize, j: usize) -> Held
    requires { DispatcherIn e store.now d × (j < length (dispatcher_now store.now d).in_flight) }
    ensures { held_of result.holder result.position ≡ held_now store.now d j }
{
    let at = dispatcher_at(e, d) + HELD_IN + e + j * HELD_WORDS;
    Held {
        holder: store[at],
        position: word(store, at + POSITION_IN),
    }
}

// Dispatcher `d` gets another entry `j` in flight.
pub(crate) fn save_held(store: &mut [u64], e: usize, d: usize, j: usize, held: Held)
    requires { DispatcherIn e store.old d × (j < length (dispatcher_now store.old d).in_flight) }
    ensures { store.new ≡ dispatcher_changed store.old d
        (λ x. with_places x x.redelivery (set x.in_flight j (held_of held.holder held.position))) }
{
    let at = dispatcher_at(e, d) + HELD_IN + e + j * HELD_WORDS;
    store[at] = held.holder;
    store[at + POSITION_IN] = held.position as u64;
}

// The first `n` entries in flight of dispatcher `d` stay, the others go.
pub(crate) fn keep_flight(store: &mut [u64], e: usize, d: usize, n: usize)
    requires { DispatcherIn e store.old d × (n ≤ length (dispatcher_now store.old d).in_flight) }
    ensures { store.new ≡ dispatcher_changed store.old d (λ x. with_places x x.redelivery (take n x.in_flight)) }
{
    flight_list(e, d).cut(store, n);
}
