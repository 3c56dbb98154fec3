// What completion leads to in an ack: the acker drops its complete entries, in one pass over what is
// in flight, and mark-delete advances.
ghost use Rattle.std.specs.Prelude.{◌≡◌, not, ◌&&◌, ◌+◌, ◌<◌, eqb, length, drop};
ghost use Rattle.rules.specs.Dispatcher.{drop_complete, leading_complete, advance_mark_delete, complete_at};
ghost use Rattle.layout.specs.Fields.{dispatcher_now, dispatcher_changed};
ghost use Rattle.layout.specs.Placed.{DispatcherIn};
ghost use Rattle.dispatcher.specs.Completion.{Marked};
ghost use Rattle.dispatcher.specs.Held.{held_now};

use super::flight::{flight_count, keep_flight, load_held, save_held};
use super::marks::{is_complete, mark_count};
use super::numbers::{load_head, save_head};

// Whether entry `j` in flight of dispatcher `d` stays when `id` drops its complete entries.
fn stays(store: &[u64], e: usize, d: usize, id: u64, j: usize) -> bool
    requires { DispatcherIn e store.now d × (j < length (dispatcher_now store.now d).in_flight)
        × ((held_now store.now d j).position < length (dispatcher_now store.now d).marks) }
    ensures { result ≡ not (eqb id (held_now store.now d j).holder
        && complete_at (dispatcher_now store.now d) (held_now store.now d j).position) }
{
    let h = load_held(store, e, d, j);
    h.holder != id || !is_complete(store, e, d, h.position)
}

// The consumer `id` drops its complete entries of dispatcher `d`; no other holder does. Those that
// stay move to the front in their order.
pub fn drop_complete(store: &mut [u64], e: usize, d: usize, id: u64)
    requires { DispatcherIn e store.old d × Marked (dispatcher_now store.old d) }
    ensures { store.new ≡ dispatcher_changed store.old d (drop_complete id) }
{
    let n = flight_count(store, e, d);
    let mut kept = 0;
    for j in 0..n {
        if stays(store, e, d, id, j) {
            let h = load_held(store, e, d, j);
            save_held(store, e, d, kept, h);
            kept += 1;
        }
    }
    keep_flight(store, e, d, kept);
}

// The first position from `from` on whose entry is not complete, in dispatcher `d`. Where all from there on are complete
// it is the one past the last mark, and mark-delete goes there.
fn first_incomplete(store: &[u64], e: usize, d: usize, from: usize) -> usize
    requires { DispatcherIn e store.now d }
    ensures { result ≡ from + leading_complete (drop from (dispatcher_now store.now d).marks) }
{
    let n = mark_count(store, e, d);
    for k in from..n {
        if !is_complete(store, e, d, k) {
            return k;
        }
    }
    from.max(n)
}

// The mark-delete of dispatcher `d` goes forward while the entry there is complete.
pub fn advance_mark_delete(store: &mut [u64], e: usize, d: usize)
    requires { DispatcherIn e store.old d }
    ensures { store.new ≡ dispatcher_changed store.old d advance_mark_delete }
{
    let mut head = load_head(store, e, d);
    let k = first_incomplete(store, e, d, head.mark_delete);
    head.advance(k);
    save_head(store, e, d, head);
}
