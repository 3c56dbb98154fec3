// Close: a consumer goes, and if it is shared its dispatcher is left by it. An id that is not live is done,
// and none is closed.
#![tactic(auto)]

mod leave;

ghost use Rattle.std.specs.Prelude.{◌≡◌, true, ◌≤◌};
ghost use Rattle.rules.specs.Permits.{least_permits, most_permits, least_total, most_total, total_in_range};
ghost use Rattle.rules.specs.State.Kind.{shared};
ghost use Rattle.rules.specs.Commands.{total_after_close};
ghost use Rattle.rules.specs.Calls.Call.{Close};
ghost use Rattle.rules.specs.State.{by_pair};
ghost use Rattle.layout.specs.Layout.{decode, spells};
ghost use Rattle.layout.specs.Calls.{answer, after};
ghost use Rattle.layout.specs.Fields.{consumer_now, dispatcher_now};
ghost use Rattle.layout.specs.Placed.{DispatcherIn};
ghost use Rattle.refusal.specs.Words.{word_of};
ghost use Rattle.store.specs.Find.{slot};
ghost use Rattle.consumer.specs.Live.{Live, LiveShared};

use command_parts::Kind;
use consumer::fields::{consumer_id, kind, permits, shared_dispatcher};
use consumer::lookup::find_consumer;
use consumer::table::remove_consumer;
use dispatcher::total::total_available_permits;
use leave::leave;
use refusal::{Answer, Refusal};
use store::header::entries;
use store::offsets::LEAK_AT;
use store::permits::{LEAST_TOTAL, MOST_TOTAL, ZERO_PERMITS};

// The value of a close that closed one.
const CLOSED: u64 = 1;

// Whether a total stays within 2^60.
fn in_range(total: u64) -> bool
    ensures { result ≡ total_in_range total }
{
    LEAST_TOTAL <= total && total <= MOST_TOTAL
}

// A total that loses a consumer's permits, twice with the leak switch.
fn total_after(leak: bool, total: u64, permits: u64) -> u64
    requires { (least_total ≤ total) × (total ≤ most_total) × (least_permits ≤ permits) × (permits ≤ most_permits) }
    ensures { result ≡ total_after_close leak total permits }
{
    let once = total + ZERO_PERMITS - permits;
    if leak {
        return once + ZERO_PERMITS - permits;
    }
    once
}

// The total of dispatcher `d` without the consumer `i`.
fn total_without(store: &[u64], e: usize, i: usize, d: usize) -> u64
    requires { Live e store.now i × DispatcherIn e store.now d
        × (d ≡ slot by_pair (consumer_now store.now i).pair (decode store.now).dispatchers) }
    ensures { result ≡ total_after_close (decode store.now).leak_shared_permits_on_churn
        (dispatcher_now store.now d).total_available_permits (consumer_now store.now i).permits }
{
    let total = total_available_permits(store, e, d);
    let p = permits(store, e, i);
    total_after(store[LEAK_AT] != 0, total, p)
}

// The close of the live shared consumer `i`.
fn close_shared(store: &mut [u64], e: usize, i: usize) -> Answer
    requires { LiveShared e store.old i }
    ensures answer { word_of result ≡ answer store.old (Close (consumer_now store.old i).id) }
    ensures words { store.new ≡ after store.old (Close (consumer_now store.old i).id) }
{
    let id = consumer_id(store, e, i);
    let d = shared_dispatcher(store, e, i);
    let total = total_without(store, e, i, d);
    if in_range(total) {
        leave(store, e, d, id, total);
        remove_consumer(store, e, i);
        return Ok(CLOSED);
    }
    Err(Refusal::PermitsRange)
}

// The close of the live consumer `i`.
fn close_live(store: &mut [u64], e: usize, i: usize) -> Answer
    requires { Live e store.old i }
    ensures answer { word_of result ≡ answer store.old (Close (consumer_now store.old i).id) }
    ensures words { store.new ≡ after store.old (Close (consumer_now store.old i).id) }
{
    match kind(store, e, i) {
        Kind::Plain => {
            remove_consumer(store, e, i);
            Ok(CLOSED)
        }
        Kind::Shared => close_shared(store, e, i),
    }
}

// 9 if the dispatcher's total would leave 2^60. The value is whether a consumer was closed.
pub fn close(store: &mut [u64], consumer: u64) -> Answer
    requires { spells store.old ≡ true }
    ensures answer { word_of result ≡ answer store.old (Close consumer) }
    ensures words { store.new ≡ after store.old (Close consumer) }
{
    let e = entries(store);
    let Some(i) = find_consumer(store, e, consumer) else {
        return Ok(0);
    };
    close_live(store, e, i)
}
