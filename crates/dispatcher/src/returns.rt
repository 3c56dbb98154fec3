// What a consumer holds goes back to the queue of its dispatcher, in one pass over what is in flight.
ghost use Rattle.std.specs.Prelude.{◌≡◌, cond, ◌+◌, ◌<◌, ◌≤◌, eqb, length};
ghost use Rattle.layout.specs.Fields.{dispatcher_now, dispatcher_changed};
ghost use Rattle.layout.specs.Placed.{DispatcherIn};
ghost use Rattle.dispatcher.specs.Returned.{one_looked_at, all_back};
ghost use Rattle.dispatcher.specs.Held.{held_now};

use super::flight::{flight_count, keep_flight, load_held, save_held};
use super::queue::append_queue;

// Entry `j` in flight of dispatcher `d` goes to the end of the queue if `id` holds it, else to place `kept`
// in flight; answers how many have stayed.
fn return_or_keep(store: &mut [u64], e: usize, d: usize, id: u64, j: usize, kept: usize) -> usize
    requires { DispatcherIn e store.old d × (j < length (dispatcher_now store.old d).in_flight) × (kept ≤ j)
        × (length (dispatcher_now store.old d).redelivery < e) }
    ensures count { result ≡ cond (eqb id (held_now store.old d j).holder) kept (kept + 1) }
    ensures words { store.new ≡ dispatcher_changed store.old d (one_looked_at id j kept) }
{
    let h = load_held(store, e, d, j);
    if h.holder == id {
        append_queue(store, e, d, h.position);
        return kept;
    }
    save_held(store, e, d, kept, h);
    kept + 1
}

// What `id` holds of dispatcher `d` goes to the end of the queue, in the order in which it was dispatched; the
// others move to the front in theirs. Not one function with `drop_complete` and a step as a closure: this pass writes the
// queue between two entries, so the step would be lent the store and the pass need a clause on what any such step makes of it
// (the entries to come kept, the queue grown): more than the loop of three lines that it would spare.
pub fn return_held(store: &mut [u64], e: usize, d: usize, id: u64)
    requires { DispatcherIn e store.old d
        × (length (dispatcher_now store.old d).redelivery + length (dispatcher_now store.old d).in_flight ≤ e) }
    ensures { store.new ≡ dispatcher_changed store.old d (all_back id) }
{
    let n = flight_count(store, e, d);
    let mut kept = 0;
    for j in 0..n {
        kept = return_or_keep(store, e, d, id, j, kept);
    }
    keep_flight(store, e, d, kept);
}
