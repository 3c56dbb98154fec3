// Ack: the ids of a list become complete or lose bits, the acker drops its complete entries, and
// mark-delete advances. A plain ack changes nothing.
#![tactic(auto)]

mod ack_id;
mod outside_ids;

ghost use Rattle.std.specs.Prelude.{◌≡◌, true, not, ◌+◌, ◌*◌, ◌%◌, ◌^◌, ◌≤◌, eqb};
ghost use Rattle.rules.specs.State.{ledger_of};
ghost use Rattle.rules.specs.State.Kind.{shared};
ghost use Rattle.rules.specs.Dispatcher.{drop_complete, advance_mark_delete};
ghost use Rattle.rules.specs.Commands.{ack_groups};
ghost use Rattle.rules.specs.Calls.{bit_of};
ghost use Rattle.rules.specs.Calls.Call.{Ack};
ghost use Rattle.layout.specs.Layout.{decode, spells};
ghost use Rattle.layout.specs.Calls.{answer, after};
ghost use Rattle.layout.specs.Fields.{consumer_now, dispatcher_now, dispatcher_changed};
ghost use Rattle.refusal.specs.Words.{word_of};
ghost use Rattle.groups.specs.Lent.{groups_in};
ghost use Rattle.dispatcher.specs.Completion.{Marked};
ghost use Rattle.consumer.specs.Live.{Live, LiveShared};
ghost use Rattle.ack.specs.Ackable.{Ackable, OutsideFits};

use ack_id::ack_all;
use command_parts::Kind;
use consumer::fields::{consumer_id, kind, shared_dispatcher, topic};
use consumer::lookup::find_consumer;
use dispatcher::completion::{advance_mark_delete, drop_complete};
use dispatcher::numbers::mark_delete;
use groups::list::Groups;
use outside_ids::passes_64;
use refusal::{Answer, Refusal};
use store::header::entries;

// 4 if not live. 10 unless the list is of the form. 11 if outside ids would pass 64. The value is
// mark-delete and whether it moved.
pub fn ack(store: &mut [u64], consumer: u64, list: &[u64]) -> Answer
    requires { spells store.old ≡ true }
    ensures answer { word_of result ≡ answer store.old (Ack consumer list.now) }
    ensures words { store.new ≡ after store.old (Ack consumer list.now) }
{
    let e = entries(store);
    let Some(i) = find_consumer(store, e, consumer) else {
        return Err(Refusal::NotLive);
    };
    let Some(groups) = Groups::of(list) else {
        return Err(Refusal::BadList);
    };
    ack_live(store, e, i, groups)
}

// An ack of the live consumer `i`.
fn ack_live(store: &mut [u64], e: usize, i: usize, groups: Groups) -> Answer
    requires { Live e store.old i }
    ensures answer { word_of result ≡ answer store.old (Ack (consumer_now store.old i).id groups.entry.list.now) }
    ensures words { store.new ≡ after store.old (Ack (consumer_now store.old i).id groups.entry.list.now) }
{
    match kind(store, e, i) {
        Kind::Plain => Ok(0),
        Kind::Shared => ack_shared(store, e, i, groups),
    }
}

// An ack of the live shared consumer `i`.
fn ack_shared(store: &mut [u64], e: usize, i: usize, groups: Groups) -> Answer
    requires { LiveShared e store.old i }
    ensures answer { word_of result ≡ answer store.old (Ack (consumer_now store.old i).id groups.entry.list.now) }
    ensures words { store.new ≡ after store.old (Ack (consumer_now store.old i).id groups.entry.list.now) }
{
    let d = shared_dispatcher(store, e, i);
    let number = topic(store, e, i);
    if passes_64(store, e, d, number, groups) {
        return Err(Refusal::IdsFull);
    }
    let from = mark_delete(store, e, d);
    let id = consumer_id(store, e, i);
    complete(store, e, d, id, number, groups);
    Ok(moved(from, mark_delete(store, e, d)))
}

// Dispatcher `d` acknowledges the ids of a list, consumer `id` drops its complete entries, and
// mark-delete advances.
fn complete(store: &mut [u64], e: usize, d: usize, id: u64, topic: u64, groups: Groups)
    requires { Ackable e store.old d topic × OutsideFits store.old d topic (groups_in groups)
        × Marked (dispatcher_now store.old d) }
    ensures { store.new ≡ dispatcher_changed store.old d (λ x. advance_mark_delete (drop_complete id
        (ack_groups (ledger_of (decode store.old) topic) x (groups_in groups.entry)))) }
{
    ack_all(store, e, d, topic, groups);
    drop_complete(store, e, d, id);
    advance_mark_delete(store, e, d);
}

// The value of an ack that found mark-delete at `from` and left it at `to`.
fn moved(from: usize, to: usize) -> u64
    requires { to ≤ 4096 }
    ensures { result ≡ to * 2 + bit_of (not (eqb from to)) }
{
    to as u64 * 2 + u64::from(from != to)
}
