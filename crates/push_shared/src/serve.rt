// A dispatcher served: its turns on local numbers again, each written as it is made; then what was taken
// leaves the queue at once, and the numbers are stored.
ghost use Rattle.std.specs.Prelude.{◌≡◌, [], ◌+◌, ◌-◌, ◌*◌, ◌≤◌, length};
ghost use Rattle.layout.specs.Layout.{decode};
ghost use Rattle.layout.specs.Fields.{dispatcher_now, dispatcher_changed};
ghost use Rattle.layout.specs.Placed.{DispatcherIn};
ghost use Rattle.push_laws.specs.Applied.{applied_dispatcher};
ghost use Rattle.push_turn.specs.Turns.{local_from, fixed_now, served_now, ServedHere};
ghost use Rattle.push_shared.specs.Service.{Ready, Written};

use super::deliver::deliver;
use dispatcher::numbers::{load_head, save_head};
use dispatcher::queue::drop_queue;
use dispatcher::ring::ring_count;
use push_turn::ring::ring_slots;
use push_turn::service::{Numbers, Served, find_served};
use push_turn::turn::take_turn;
use record::RECORD_WORDS;

// Dispatcher `d` after its turns: what was taken leaves its queue, and its numbers are stored.
fn finish(store: &mut [u64], e: usize, d: usize, numbers: Numbers)
    requires { DispatcherIn e store.old d × (numbers.taken ≤ length (dispatcher_now store.old d).redelivery)
        × (numbers.head.mark_delete ≡ (dispatcher_now store.old d).mark_delete) }
    ensures { store.new ≡ dispatcher_changed store.old d (λ x. applied_dispatcher x (local_from [] numbers) []) }
{
    drop_queue(store, e, d, numbers.taken);
    save_head(store, e, d, numbers.head);
}

// Serves a dispatcher whose ring is `ring`. The list begins with the records; the answer is how many there are. They are
// counted by hand: each turn reads the store that the delivery before it wrote, so the turns are no iterator that lives
// beside it.
fn serve_turns(
    store: &mut [u64],
    served: Served,
    ring: &[usize],
    permits: &mut [u64],
    list: &mut [u64],
) -> usize
    requires { ServedHere served store.old × (ring.now ≡ (fixed_now store.old served.d).ring)
        × ((dispatcher_now store.old served.d).next ≤ length ring.now) × (length permits.old ≡ length (decode store.old).consumers)
        × (length (dispatcher_now store.old served.d).in_flight + (length (dispatcher_now store.old served.d).redelivery
        + (served.n - (dispatcher_now store.old served.d).cursor)) ≤ served.e)
        × (length (served_now store.old served.d permits.old).made * 13 ≤ length list.old) }
    ensures { Written served.e store.old served.d permits.old list.old store.new permits.new list.new result }
{
    let mut numbers = Numbers::from(load_head(store, served.e, served.d));
    let mut made = 0;
    while let Some(step) = take_turn(store, served, ring, permits, &mut numbers) {
        deliver(store, served, &mut list[made * RECORD_WORDS..], step);
        made += 1;
    }
    finish(store, served.e, served.d, numbers);
    made
}

// Serves dispatcher `d`. The list begins with the records; the answer is how many there are. Not one function with the count
// of what is due and a closure for what is done with the ring: here the store is lent to be written, there to be read.
pub(crate) fn serve_dispatcher(
    store: &mut [u64],
    e: usize,
    d: usize,
    permits: &mut [u64],
    list: &mut [u64],
) -> usize
    requires { Ready e store.old d × (length permits.old ≡ length (decode store.old).consumers)
        × (length (served_now store.old d permits.old).made * 13 ≤ length list.old) }
    ensures { Written e store.old d permits.old list.old store.new permits.new list.new result }
{
    let size = ring_count(store, e, d);
    // 32 at most, and no heap: the array is lent as long as it is used.
    let mut all = [0usize; 32];
    let ring = &mut all[..size];
    let served = find_served(store, e, d);
    ring_slots(store, e, d, ring);
    serve_turns(store, served, ring, permits, list)
}
