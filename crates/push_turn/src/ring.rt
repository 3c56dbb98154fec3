// The ring of a dispatcher as slots of the table of consumers.
ghost use Rattle.std.specs.Prelude.{◌≡◌, length};
ghost use Rattle.rules.specs.State.{by_id};
ghost use Rattle.layout.specs.Layout.{decode};
ghost use Rattle.layout.specs.Canon.{CanonStore};
ghost use Rattle.layout.specs.Fields.{dispatcher_now};
ghost use Rattle.layout.specs.Placed.{DispatcherIn};
ghost use Rattle.store.specs.Find.{slot};
ghost use Rattle.push_turn.specs.Turns.{fixed_now};

use consumer::lookup::find_consumer;
use consumer::table::consumer_count;
use dispatcher::ring::ring_id;

// The slot of the consumer with an id; the number of consumers if it is not live, as push's laws read a ring.
fn slot_of(store: &[u64], e: usize, id: u64) -> usize
    requires { CanonStore e store.now }
    ensures { result ≡ slot by_id id (decode store.now).consumers }
{
    find_consumer(store, e, id).unwrap_or(consumer_count(store, e))
}

// The ring of dispatcher `d` as slots, in a list of its length.
pub fn ring_slots(store: &[u64], e: usize, d: usize, ring: &mut [usize])
    requires { DispatcherIn e store.now d × (length ring.old ≡ length (dispatcher_now store.now d).attached) }
    ensures { ring.new ≡ (fixed_now store.now d).ring }
{
    for (j, place) in ring.iter_mut().enumerate() {
        *place = slot_of(store, e, ring_id(store, e, d, j));
    }
}
