// Flow: a grant joins the permits of a consumer and, if it is shared, of its dispatcher.
#![tactic(auto)]

ghost use Rattle.std.specs.Prelude.{◌≡◌, true, ◌+◌, ◌≤◌, ◌<◌, ◌^◌};
ghost use Rattle.rules.specs.Permits.{most_permits};
ghost use Rattle.rules.specs.State.Kind.{shared};
ghost use Rattle.rules.specs.Calls.Call.{Flow};
ghost use Rattle.layout.specs.Layout.{spells};
ghost use Rattle.layout.specs.Calls.{answer, after};
ghost use Rattle.layout.specs.Fields.{consumer_now};
ghost use Rattle.refusal.specs.Words.{word_of};
ghost use Rattle.consumer.specs.Live.{Live, LiveShared};

use command_parts::Kind;
use consumer::fields::{kind, permits, set_permits, shared_dispatcher};
use consumer::lookup::find_consumer;
use dispatcher::total::{set_total_available_permits, total_available_permits};
use refusal::{Answer, Refusal};
use store::header::entries;
use store::permits::{MOST_PERMITS, MOST_TOTAL};

// 4 if not live. 9 if the consumer would pass 2^40 or the dispatcher 2^60. The value is the
// consumer's permits after.
pub fn flow(store: &mut [u64], consumer: u64, grant: u32) -> Answer
    requires { spells store.old ≡ true }
    ensures answer { word_of result ≡ answer store.old (Flow consumer grant) }
    ensures words { store.new ≡ after store.old (Flow consumer grant) }
{
    let e = entries(store);
    let Some(i) = find_consumer(store, e, consumer) else {
        return Err(Refusal::NotLive);
    };
    flow_live(store, e, i, grant as u64)
}

// A flow of the live consumer `i`.
fn flow_live(store: &mut [u64], e: usize, i: usize, grant: u64) -> Answer
    requires { Live e store.old i × (grant < 2 ^ 32) }
    ensures answer { word_of result ≡ answer store.old (Flow (consumer_now store.old i).id grant) }
    ensures words { store.new ≡ after store.old (Flow (consumer_now store.old i).id grant) }
{
    let granted = permits(store, e, i) + grant;
    if MOST_PERMITS < granted {
        return Err(Refusal::PermitsRange);
    }
    match kind(store, e, i) {
        Kind::Plain => {
            set_permits(store, e, i, granted);
            Ok(granted)
        }
        Kind::Shared => flow_shared(store, e, i, grant, granted),
    }
}

// A flow of the live shared consumer `i`, which would have the permits `granted`.
fn flow_shared(store: &mut [u64], e: usize, i: usize, grant: u64, granted: u64) -> Answer
    requires { LiveShared e store.old i × (grant < 2 ^ 32)
        × (granted ≡ (consumer_now store.old i).permits + grant) × (granted ≤ most_permits) }
    ensures answer { word_of result ≡ answer store.old (Flow (consumer_now store.old i).id grant) }
    ensures words { store.new ≡ after store.old (Flow (consumer_now store.old i).id grant) }
{
    let d = shared_dispatcher(store, e, i);
    let total = total_available_permits(store, e, d) + grant;
    if MOST_TOTAL < total {
        return Err(Refusal::PermitsRange);
    }
    set_permits(store, e, i, granted);
    set_total_available_permits(store, e, d, total);
    Ok(granted)
}
