// The balance check: what the permits of a ring's live consumers come to, from the oldest on. After
// every honest list of calls it is the dispatcher's total; no operation asks for it.
#![tactic(auto)]

ghost use Rattle.std.specs.Prelude.{◌≡◌, true, ◌^◌, ◌≤◌};
ghost use Rattle.rules.specs.State.{consumer_of};
ghost use Rattle.rules.specs.Dispatcher.{live_under, add_permits, balance_check};
ghost use Rattle.layout.specs.Layout.{decode, spells};
ghost use Rattle.layout.specs.Fields.{consumer_now, dispatcher_now};
ghost use Rattle.layout.specs.Placed.{ConsumerIn, DispatcherIn};

use command_parts::Kind;
use consumer::fields::{kind, pair, permits};
use consumer::lookup::find_consumer;
use dispatcher::ring::{ring_count, ring_id};
use dispatcher::table::is_of_pair;
use store::permits::ZERO_PERMITS;

// Whether consumer `i` is live under dispatcher `d`: a shared one of its pair.
fn is_under(store: &[u64], e: usize, d: usize, i: usize) -> bool
    requires { DispatcherIn e store.now d × ConsumerIn e store.now i }
    ensures { result ≡ live_under (dispatcher_now store.now d).pair (consumer_now store.now i) }
{
    match kind(store, e, i) {
        Kind::Plain => false,
        Kind::Shared => is_of_pair(store, e, d, pair(store, e, i)),
    }
}

// A sum with the permits of the consumer `id` added, if it is live under dispatcher `d`.
fn add_permits(store: &[u64], e: usize, d: usize, id: u64, sum: u64) -> u64
    requires { DispatcherIn e store.now d × (spells store.now ≡ true) × (2 ^ 61 ≤ sum) × (sum ≤ 2 ^ 63) }
    ensures { result ≡ add_permits (dispatcher_now store.now d).pair sum (consumer_of (decode store.now) id) }
{
    let Some(i) = find_consumer(store, e, id) else {
        return sum;
    };
    if !is_under(store, e, d, i) {
        return sum;
    }
    sum + permits(store, e, i) - ZERO_PERMITS
}

// The permits of the consumers of dispatcher `d`, in excess form.
pub fn balance_check(store: &[u64], e: usize, d: usize) -> u64
    requires { DispatcherIn e store.now d × (spells store.now ≡ true) }
    ensures { result ≡ balance_check (decode store.now) (dispatcher_now store.now d) }
{
    let n = ring_count(store, e, d);
    let mut sum = ZERO_PERMITS;
    for j in 0..n {
        sum = add_permits(store, e, d, ring_id(store, e, d, j), sum);
    }
    sum
}
