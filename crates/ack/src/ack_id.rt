// An ack of one id, and of the ids of a list in order: of an entry by its mark, of an id that is not
// in the ledger by joining the outside ids.
ghost use Rattle.std.specs.Prelude.{◌≡◌, cond, ◌||◌, ◌≤◌, ◌<◌, length, set};
ghost use Rattle.bits.specs.Bits.{fresh_unacked_bits, bits_empty};
ghost use Rattle.bits.specs.Four.{four, words};
ghost use Rattle.rules.specs.State.{completed, ledger_of};
ghost use Rattle.rules.specs.Ledger.{message_at};
ghost use Rattle.rules.specs.Dispatcher.{with_marks, mark_at, bits_left, ack_mark, ack_id};
ghost use Rattle.rules.specs.Commands.{ack_groups};
ghost use Rattle.layout.specs.Layout.{decode};
ghost use Rattle.layout.specs.Canon.{CanonStore};
ghost use Rattle.layout.specs.Fields.{dispatcher_now, dispatcher_changed};
ghost use Rattle.layout.specs.Placed.{DispatcherIn};
ghost use Rattle.groups.specs.Lent.{group_of, groups_in};
ghost use Rattle.dispatcher.specs.Values.{mark_of};
ghost use Rattle.ack.specs.Ackable.{Ackable, outside_with, OutsideFits};

use super::outside_ids::is_outside;
use bits::UnackedBits;
use dispatcher::marks::{Mark, load_mark, save_mark};
use dispatcher::outside::insert_outside;
use groups::group::Group;
use groups::list::Groups;
use message_id::Id;
use topic::message::batch_size;
use topic::position::position_in;
use topic::table::find_topic;

// The stored bits of an entry, fresh if none.
fn bits_or_fresh(bits: UnackedBits, batch: u64) -> UnackedBits
    ensures { words result ≡ cond (bits_empty (words bits)) (fresh_unacked_bits 4 batch) (words bits) }
{
    if bits.bits_empty() {
        UnackedBits::fresh_unacked_bits(batch)
    } else {
        bits
    }
}

// A mark with its entry complete.
fn acked_whole(mark: Mark) -> Mark
    ensures { mark_of result ≡ record { acked = completed; redelivery_count = mark.redelivery_count } }
{
    Mark {
        complete: true,
        redelivery_count: mark.redelivery_count,
        unacked: UnackedBits::default(),
    }
}

// A mark with its bits and-ed with the words of a group; none left means complete.
fn acked_in_part(mark: Mark, batch: u64, group: Group) -> Mark
    ensures { mark_of result ≡ record {
      acked = record {
        complete = mark.complete || bits_empty (bits_left batch (group_of group.entry).words mark.unacked);
        unacked = four (bits_left batch (group_of group.entry).words mark.unacked);
      };
      redelivery_count = mark.redelivery_count;
    } }
{
    let bits = bits_or_fresh(mark.unacked, batch);
    let left = group.and(bits);
    Mark {
        complete: mark.complete || left.bits_empty(),
        redelivery_count: mark.redelivery_count,
        unacked: left,
    }
}

// A mark with its entry, of `batch` messages, acknowledged by a group.
fn acked_mark(mark: Mark, batch: u64, group: Group) -> Mark
    ensures { mark_of result ≡ ack_mark batch (group_of group.entry).words (mark_of mark) }
{
    if batch <= 1 {
        return acked_whole(mark);
    }
    if group.words.is_empty() {
        return acked_whole(mark);
    }
    acked_in_part(mark, batch, group)
}

// The batch size of message `k` of a topic. The topic exists, since it has that message, so no test is made.
// The slot is looked for with each group. A topic may not exist yet, and then its ids still join the outside ids: a slot
// that the groups share would be an `Option`, and each function from here to `ack_all` would ask whose ledger it is.
fn batch_size_of(store: &[u64], e: usize, topic: u64, k: usize) -> u64
    requires { CanonStore e store.now × (k < length (ledger_of (decode store.now) topic)) }
    ensures { result ≡ (message_at (ledger_of (decode store.now) topic) k).batch_size }
{
    let t = find_topic(store, e, topic);
    batch_size(store, e, t, k)
}

// Dispatcher `d` acknowledges entry `k` of a topic by a group.
fn ack_entry(store: &mut [u64], e: usize, d: usize, topic: u64, k: usize, group: Group)
    requires { Ackable e store.old d topic × (k < length (ledger_of (decode store.old) topic)) }
    ensures { store.new ≡ dispatcher_changed store.old d (λ x. with_marks x (set x.marks k
        (ack_mark (message_at (ledger_of (decode store.old) topic) k).batch_size (group_of group.entry).words (mark_at x k)))
        x.outside) }
{
    let batch = batch_size_of(store, e, topic, k);
    let mark = load_mark(store, e, d, k);
    let acked = acked_mark(mark, batch, group);
    save_mark(store, e, d, k, acked);
}

// Dispatcher `d` acknowledges an id that is not in the ledger: it joins the outside ids once, in its
// place.
fn ack_outside(store: &mut [u64], e: usize, d: usize, id: Id)
    requires { DispatcherIn e store.old d × (length (outside_with id (dispatcher_now store.old d)) ≤ 64) }
    ensures { store.new ≡ dispatcher_changed store.old d
        (λ x. with_marks x x.marks (outside_with id x)) }
{
    if !is_outside(store, e, d, id) {
        insert_outside(store, e, d, id);
    }
}

// Dispatcher `d` acknowledges the id of a group.
fn ack_here(store: &mut [u64], e: usize, d: usize, topic: u64, group: Group)
    requires { Ackable e store.old d topic
        × (length (ack_id (ledger_of (decode store.old) topic) (dispatcher_now store.old d) (group_of group).id
        (group_of group).words).outside ≤ 64) }
    ensures { store.new ≡ dispatcher_changed store.old d
        (λ x. ack_id (ledger_of (decode store.old) topic) x (group_of group.entry).id (group_of group.entry).words) }
{
    if let Some(k) = position_in(store, e, topic, group) {
        ack_entry(store, e, d, topic, k, group);
    } else {
        ack_outside(store, e, d, group.id());
    }
}

// Dispatcher `d` acknowledges the ids of groups, in order.
pub(crate) fn ack_all(store: &mut [u64], e: usize, d: usize, topic: u64, groups: Groups)
    requires { Ackable e store.old d topic × OutsideFits store.old d topic (groups_in groups) }
    ensures { store.new ≡ dispatcher_changed store.old d
        (λ x. ack_groups (ledger_of (decode store.old) topic) x (groups_in groups.entry)) }
{
    for group in groups {
        ack_here(store, e, d, topic, group);
    }
}
