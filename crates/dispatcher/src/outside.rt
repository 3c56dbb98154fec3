// The complete ids of a dispatcher that are not in the ledger. They ascend by ledger, then by entry.
ghost use Rattle.std.specs.Prelude.{◌≡◌, ◌++◌, ◌+◌, ◌≤◌, ◌<◌, length, get_or, take, drop};
ghost use Rattle.rules.specs.Ledger.{insert_id};
ghost use Rattle.rules.specs.Dispatcher.{with_marks};
ghost use Rattle.layout.specs.Fields.{zero_id, dispatcher_now, dispatcher_changed};
ghost use Rattle.layout.specs.Placed.{DispatcherIn};
ghost use Rattle.store.specs.Find.{slot};
ghost use Rattle.store.specs.Found.{found};
ghost use Rattle.dispatcher.specs.Lists.{outside_list};
ghost use Rattle.dispatcher.specs.Outside.{by_itself, by_order};

use message_id::Id;
use search::first_row;
use store::counted::Counted;
use store::offsets::{ID_WORDS, OUTSIDE_IDS_IN, OUTSIDE_IN, dispatcher_at};
use topic::find::id_at;

// The outside ids of dispatcher `d`, as a list in a store.
fn outside_list(e: usize, d: usize) -> Counted
    requires { (e ≤ 4096) × (d ≤ 8) }
    ensures { result ≡ outside_list e d }
{
    let at = dispatcher_at(e, d);
    Counted {
        count_at: at + OUTSIDE_IN,
        first: at + OUTSIDE_IDS_IN,
        width: ID_WORDS,
    }
}

// The number of outside ids of dispatcher `d`.
pub fn outside_count(store: &[u64], e: usize, d: usize) -> usize
    requires { DispatcherIn e store.now d }
    ensures { result ≡ length (dispatcher_now store.now d).outside }
{
    outside_list(e, d).count(store)
}

// Outside id `j` of dispatcher `d`.
fn outside_id(store: &[u64], e: usize, d: usize, j: usize) -> Id
    requires { DispatcherIn e store.now d × (j < length (dispatcher_now store.now d).outside) }
    ensures { result ≡ get_or (dispatcher_now store.now d).outside j zero_id }
{
    let at = dispatcher_at(e, d);
    id_at(store, at + OUTSIDE_IDS_IN + j * ID_WORDS)
}

// The place of an id among the outside ids of dispatcher `d`.
pub fn find_outside(store: &[u64], e: usize, d: usize, id: Id) -> Option<usize>
    requires { DispatcherIn e store.now d }
    ensures { result ≡ found by_itself id (dispatcher_now store.now d).outside }
{
    first_row(outside_count(store, e, d), |j| {
        id == outside_id(store, e, d, j)
    })
}

// Outside id `j` of dispatcher `d` is left out; those after it keep their order.
pub fn remove_outside(store: &mut [u64], e: usize, d: usize, j: usize)
    requires { DispatcherIn e store.old d × (j < length (dispatcher_now store.old d).outside) }
    ensures { store.new ≡ dispatcher_changed store.old d
        (λ x. with_marks x x.marks (take j x.outside ++ drop (j + 1) x.outside)) }
{
    outside_list(e, d).remove(store, j);
}

// The place for an id among the outside ids of dispatcher `d`: that of the first which comes after it,
// or else their end.
fn place_for_outside(store: &[u64], e: usize, d: usize, id: Id) -> usize
    requires { DispatcherIn e store.now d }
    ensures { result ≡ slot by_order id (dispatcher_now store.now d).outside }
{
    let n = outside_count(store, e, d);
    first_row(n, |j| id < outside_id(store, e, d, j)).unwrap_or(n)
}

// An id joins the outside ids of dispatcher `d`, which have room, in its place among them.
pub fn insert_outside(store: &mut [u64], e: usize, d: usize, id: Id)
    requires { DispatcherIn e store.old d × (length (dispatcher_now store.old d).outside < 64) }
    ensures { store.new ≡ dispatcher_changed store.old d
        (λ x. with_marks x x.marks (insert_id id x.outside)) }
{
    let j = place_for_outside(store, e, d, id);
    outside_list(e, d).insert(store, j, [id.ledger, id.entry]);
}
