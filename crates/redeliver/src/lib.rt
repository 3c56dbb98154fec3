// Redeliver: a plain consumer's found entries join nacked; what a shared consumer holds goes back to
// its dispatcher. Every refusal is answered before the first write.
#![tactic(auto)]

mod found;
mod hand_back;

ghost use Rattle.std.specs.Prelude.{◌≡◌, true};
ghost use Rattle.rules.specs.State.Kind.{plain, shared};
ghost use Rattle.rules.specs.Calls.Call.{Redeliver};
ghost use Rattle.layout.specs.Layout.{spells};
ghost use Rattle.layout.specs.Calls.{answer, after};
ghost use Rattle.layout.specs.Fields.{consumer_now};
ghost use Rattle.refusal.specs.Words.{word_of};
ghost use Rattle.consumer.specs.Live.{Live, LiveShared};

use command_parts::Kind;
use consumer::fields::{consumer_id, kind, shared_dispatcher};
use consumer::lookup::find_consumer;
use consumer::nacked::nacked_count;
use found::{found_count, join_found};
use groups::list::Groups;
use hand_back::hand_back_all;
use refusal::{Answer, Refusal};
use store::header::entries;
use store::limits::MOST_NACKED;

// 4 if not live. 10 unless the list is of the form. 11 if nacked would pass 64. Words are ignored.
pub fn redeliver(store: &mut [u64], consumer: u64, list: &[u64]) -> Answer
    requires { spells store.old ≡ true }
    ensures answer { word_of result ≡ answer store.old (Redeliver consumer list.now) }
    ensures words { store.new ≡ after store.old (Redeliver consumer list.now) }
{
    let e = entries(store);
    let Some(i) = find_consumer(store, e, consumer) else {
        return Err(Refusal::NotLive);
    };
    let Some(groups) = Groups::of(list) else {
        return Err(Refusal::BadList);
    };
    redeliver_live(store, e, i, groups)
}

// A redeliver of the live consumer `i`.
fn redeliver_live(store: &mut [u64], e: usize, i: usize, groups: Groups) -> Answer
    requires { Live e store.old i }
    ensures answer { word_of result ≡ answer store.old (Redeliver (consumer_now store.old i).id groups.entry.list.now) }
    ensures words { store.new ≡ after store.old (Redeliver (consumer_now store.old i).id groups.entry.list.now) }
{
    match kind(store, e, i) {
        Kind::Plain => redeliver_plain(store, e, i, groups),
        Kind::Shared => redeliver_shared(store, e, i, groups),
    }
}

// A redeliver of the live plain consumer `i`.
fn redeliver_plain(store: &mut [u64], e: usize, i: usize, groups: Groups) -> Answer
    requires { Live e store.old i × ((consumer_now store.old i).kind ≡ plain) }
    ensures answer { word_of result ≡ answer store.old (Redeliver (consumer_now store.old i).id groups.entry.list.now) }
    ensures words { store.new ≡ after store.old (Redeliver (consumer_now store.old i).id groups.entry.list.now) }
{
    let n = nacked_count(store, e, i) + found_count(store, e, i, groups);
    if MOST_NACKED < n {
        return Err(Refusal::IdsFull);
    }
    join_found(store, e, i, groups);
    Ok(0)
}

// A redeliver of the live shared consumer `i`.
fn redeliver_shared(store: &mut [u64], e: usize, i: usize, groups: Groups) -> Answer
    requires { LiveShared e store.old i }
    ensures answer { word_of result ≡ answer store.old (Redeliver (consumer_now store.old i).id groups.entry.list.now) }
    ensures words { store.new ≡ after store.old (Redeliver (consumer_now store.old i).id groups.entry.list.now) }
{
    let d = shared_dispatcher(store, e, i);
    let id = consumer_id(store, e, i);
    hand_back_all(store, e, d, id, groups);
    Ok(0)
}
