// Subscribe: a consumer is made, or made anew. A shared one joins the ring of its pair.
#![tactic(auto)]

mod admit;
pub mod command;
mod enter;
mod join;
mod seat;

ghost use Rattle.std.specs.Prelude.{◌≡◌, true};
ghost use Rattle.rules.specs.State.Kind.{plain, shared};
ghost use Rattle.rules.specs.Calls.Call.{Subscribe as Subscribed};
ghost use Rattle.layout.specs.Layout.{spells};
ghost use Rattle.layout.specs.Calls.{answer, after};
ghost use Rattle.refusal.specs.Words.{word_of};
ghost use Rattle.subscribe.specs.Admitted.{Admitted};
ghost use Rattle.subscribe.specs.Commanded.{subscribe_call};
ghost use Rattle.dispatcher.specs.Pairs.{pair_in};

use admit::{is_full, is_idle, is_live, pairs_full, ring_full};
use command::Subscribe;
use command_parts::Kind;
use dispatcher::table::Pair;
use enter::enter;
use refusal::{Answer, Refusal};
use seat::seat_consumer;
use store::header::entries;

// Done at once if the id is live and that is a no-op. 12 if the id is not live and 32 are. 13 if it is
// shared, its pair is new, and 8 exist. 14 if it is shared, not in that ring, and the ring has 32.
pub fn subscribe(store: &mut [u64], command: Subscribe) -> Answer
    requires { spells store.old ≡ true }
    ensures answer { word_of result ≡ answer store.old (subscribe_call command) }
    ensures words { store.new ≡ after store.old (subscribe_call command) }
{
    let e = entries(store);
    let live = is_live(store, e, command.consumer);
    if is_idle(store, e, live) {
        return Ok(0);
    }
    if is_full(store, e, live) {
        return Err(Refusal::ConsumersFull);
    }
    let pair = Pair {
        topic: command.topic as u64,
        subscription: command.subscription as u64,
    };
    match command.kind {
        Kind::Plain => subscribe_plain(store, e, command.consumer, pair),
        Kind::Shared => subscribe_shared(store, e, command.consumer, pair),
    }
}

// A plain consumer is made.
fn subscribe_plain(store: &mut [u64], e: usize, id: u64, pair: Pair) -> Answer
    requires { Admitted e store.old id }
    ensures answer { word_of result ≡ answer store.old (Subscribed id plain (pair_in pair)) }
    ensures words { store.new ≡ after store.old (Subscribed id plain (pair_in pair)) }
{
    seat_consumer(store, e, id, Kind::Plain, pair);
    Ok(0)
}

// A shared consumer is made and joins its ring, if both have room.
fn subscribe_shared(store: &mut [u64], e: usize, id: u64, pair: Pair) -> Answer
    requires { Admitted e store.old id }
    ensures answer { word_of result ≡ answer store.old (Subscribed id shared (pair_in pair)) }
    ensures words { store.new ≡ after store.old (Subscribed id shared (pair_in pair)) }
{
    if pairs_full(store, e, pair) {
        return Err(Refusal::DispatchersFull);
    }
    if ring_full(store, e, pair, id) {
        return Err(Refusal::RingFull);
    }
    enter(store, e, id, pair);
    Ok(0)
}
