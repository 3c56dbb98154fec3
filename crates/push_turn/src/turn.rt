// One turn of a dispatcher: at most one entry is handed out. The queue comes first, then the ledger;
// where neither has an entry the turn stops, with next moved all the same.
ghost use Rattle.std.specs.Prelude.{◌≡◌, cond, suc, ◌≤◌, ◌<◌, eqb, length, get_or, Some};
ghost use Rattle.rules.specs.Permits.{zero_permits};
ghost use Rattle.push_laws.specs.Local.{local_turn, take_entry, hand_over};
ghost use Rattle.push_turn.specs.Turns.{local_from, turn_of, fixed_now, ServedHere};

use super::choice::choose;
use super::price::price;
use super::service::{Numbers, Served};
use dispatcher::queue::{queue_count, queued};
use store::permits::ZERO_PERMITS;

// One dispatch: the consumer's slot, the entry's position, its cost, the consumer's permits after it.
#[derive(Clone, Copy)]
pub struct Step {
    pub consumer: usize,
    pub position: usize,
    pub price: u64,
    pub permits: u64,
}

// The place after one in a ring of `n`, going round: a test, as `slot_after` of the rules has it.
fn place_after(place: usize, n: usize) -> usize
    requires { place < n }
    ensures { result ≡ cond (eqb (suc place) n) 0 (suc place) }
{
    if place + 1 == n { 0 } else { place + 1 }
}

// The entry at position `k` goes to the consumer in slot `c`, and its cost leaves the consumer's permits and the total; next
// and the cursor go where they are told.
fn hand_over(
    store: &[u64],
    served: Served,
    permits: &mut [u64],
    c: usize,
    k: usize,
    numbers: &mut Numbers,
    next: usize,
    cursor: usize,
) -> Step
    requires { ServedHere served store.now × (k < served.n) × (zero_permits < get_or permits.old c 0)
        × (zero_permits < numbers.old.head.total_available_permits) }
    ensures turn { turn_of permits.new numbers.new (Some result) ≡ hand_over (fixed_now store.now served.d) permits.old next cursor
        numbers.old.head.total_available_permits numbers.old.taken c k }
    ensures mark_delete { numbers.new.head.mark_delete ≡ numbers.old.head.mark_delete }
{
    let cost = price(store, served, k);
    let left = permits[c] - cost;
    permits[c] = left;
    numbers.head.dispatch(next, cursor, cost);
    Step {
        consumer: c,
        position: k,
        price: cost,
        permits: left,
    }
}

// The next entry goes to the consumer in slot `c`, if there is one, and next moves whether there is one or not. What is taken
// off the queue is counted before it is handed over.
fn take_entry(
    store: &[u64],
    served: Served,
    permits: &mut [u64],
    c: usize,
    numbers: &mut Numbers,
    next: usize,
) -> Option<Step>
    requires { ServedHere served store.now × (zero_permits < get_or permits.old c 0) × (zero_permits < numbers.old.head.total_available_permits) }
    ensures turn { turn_of permits.new numbers.new result ≡ take_entry (fixed_now store.now served.d)
        (local_from permits.old numbers.old) next c }
    ensures mark_delete { numbers.new.head.mark_delete ≡ numbers.old.head.mark_delete }
{
    let cursor = numbers.head.cursor;
    if numbers.taken < queue_count(store, served.e, served.d) {
        let k = queued(store, served.e, served.d, numbers.taken);
        numbers.taken += 1;
        let first = hand_over(store, served, permits, c, k, numbers, next, cursor);
        return Some(first);
    }
    if cursor < served.n {
        let step = hand_over(store, served, permits, c, cursor, numbers, next, cursor + 1);
        return Some(step);
    }
    numbers.head.dispatch(next, cursor, 0);
    None
}

// One turn of a dispatcher whose ring is `ring`, on the permits and its numbers: the dispatch, if one is made. Next moves
// whether there is an entry or not; mark-delete stays.
pub fn take_turn(
    store: &[u64],
    served: Served,
    ring: &[usize],
    permits: &mut [u64],
    numbers: &mut Numbers,
) -> Option<Step>
    requires { ServedHere served store.now × (ring.now ≡ (fixed_now store.now served.d).ring) × (numbers.old.head.next ≤ length ring.now) }
    ensures turn { turn_of permits.new numbers.new result ≡ local_turn (fixed_now store.now served.d) (local_from permits.old numbers.old) }
    ensures mark_delete { numbers.new.head.mark_delete ≡ numbers.old.head.mark_delete }
{
    if numbers.head.total_available_permits <= ZERO_PERMITS {
        return None;
    }
    let place = choose(ring, permits, numbers.head.next)?;
    let next = place_after(place, ring.len());
    take_entry(store, served, permits, ring[place], numbers, next)
}
