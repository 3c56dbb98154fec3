// How many dispatches a push is due from the dispatchers, one after the other, the permits carried from
// each to the next.
ghost use Rattle.std.specs.Prelude.{◌≡◌, true, ◌≤◌, ◌<◌, length};
ghost use Rattle.layout.specs.Layout.{decode, spells};
ghost use Rattle.layout.specs.Fields.{dispatcher_now};
ghost use Rattle.push_laws.specs.Shared.{permits_left};
ghost use Rattle.push_turn.specs.Turns.{fixed_now, served_now, services_now, shared_records_now, ServedHere};

use super::ring::ring_slots;
use super::service::{Numbers, Served, find_served};
use super::turn::take_turn;
use dispatcher::numbers::load_head;
use dispatcher::ring::ring_count;
use dispatcher::table::dispatcher_count;

// How many dispatches a dispatcher is due, by turns; the permits are left as its service leaves them. The turns are a
// loop, since each takes the permits and numbers that the last one left.
fn due_turns(store: &[u64], served: Served, ring: &[usize], permits: &mut [u64]) -> usize
    requires { ServedHere served store.now × (ring.now ≡ (fixed_now store.now served.d).ring)
        × ((dispatcher_now store.now served.d).next ≤ length ring.now) }
    ensures count { result ≡ length (served_now store.now served.d permits.old).made }
    ensures permits { permits.new ≡ (served_now store.now served.d permits.old).after.permits }
{
    let mut numbers = Numbers::from(load_head(store, served.e, served.d));
    let mut count = 0;
    while take_turn(store, served, ring, permits, &mut numbers).is_some() {
        count += 1;
    }
    count
}

// How many dispatches dispatcher `d` is due; the permits are left as its service leaves them.
fn due_of(store: &[u64], e: usize, d: usize, permits: &mut [u64]) -> usize
    requires { (spells store.now ≡ true) × (e ≡ (decode store.now).entries) × (d < length (decode store.now).dispatchers) }
    ensures count { result ≡ length (served_now store.now d permits.old).made }
    ensures permits { permits.new ≡ (served_now store.now d permits.old).after.permits }
{
    let size = ring_count(store, e, d);
    // 32 at most, and no heap: the array is lent as long as it is used.
    let mut all = [0usize; 32];
    let ring = &mut all[..size];
    let served = find_served(store, e, d);
    ring_slots(store, e, d, ring);
    due_turns(store, served, ring, permits)
}

// How many dispatches all dispatchers are due; the permits are left as the last service leaves them. The sum is a
// loop, since each service moves the permits that the next one reads.
pub fn due_shared(store: &[u64], e: usize, permits: &mut [u64]) -> usize
    requires { (spells store.now ≡ true) × (e ≡ (decode store.now).entries) }
    ensures count { result ≡ length (shared_records_now store.now permits.old) }
    ensures permits { permits.new ≡ permits_left permits.old (services_now store.now permits.old) }
{
    let n = dispatcher_count(store, e);
    let mut count = 0;
    for d in 0..n {
        count += due_of(store, e, d, permits);
    }
    count
}
