// A new entry of a topic as its dispatchers see it: each gains a mark. An id that was complete outside
// the ledger stays complete and frees its place.
ghost use Rattle.std.specs.Prelude.{◌≡◌, map};
ghost use Rattle.rules.specs.Table.{Every};
ghost use Rattle.rules.specs.State.{with_dispatchers};
ghost use Rattle.rules.specs.Commands.{with_new_entry};
ghost use Rattle.layout.specs.Layout.{decode};
ghost use Rattle.layout.specs.Canon.{CanonStore};
ghost use Rattle.layout.specs.Fields.{dispatcher_now, state_changed, dispatcher_changed};
ghost use Rattle.layout.specs.Placed.{DispatcherIn};
ghost use Rattle.append.specs.Entries.{gained, TakesEntry, Takes};

use dispatcher::marks::{complete_mark, mark_count, raise_marks};
use dispatcher::numbers;
use dispatcher::outside::{find_outside, remove_outside};
use dispatcher::table::dispatcher_count;
use message_id::Id;

// Every dispatcher of the topic gains the mark of the new entry.
pub(crate) fn new_entries(store: &mut [u64], e: usize, topic: u64, id: Id)
    requires { CanonStore e store.old × Every (Takes e topic) (decode store.old).dispatchers }
    ensures { store.new ≡ state_changed store.old
        (λ s. with_dispatchers s (map (with_new_entry topic id) s.dispatchers)) }
{
    let n = dispatcher_count(store, e);
    for d in 0..n {
        new_entry(store, e, d, topic, id);
    }
}

// Dispatcher `d` gains the mark of the new entry, if it is one of the topic.
fn new_entry(store: &mut [u64], e: usize, d: usize, topic: u64, id: Id)
    requires { DispatcherIn e store.old d × Takes e topic (dispatcher_now store.old d) }
    ensures { store.new ≡ dispatcher_changed store.old d (with_new_entry topic id) }
{
    if topic == numbers::topic(store, e, d) {
        gain_entry(store, e, d, id);
    }
}

// Dispatcher `d` gains the mark of the new entry.
fn gain_entry(store: &mut [u64], e: usize, d: usize, id: Id)
    requires { DispatcherIn e store.old d × TakesEntry e (dispatcher_now store.old d) }
    ensures { store.new ≡ dispatcher_changed store.old d (gained id) }
{
    let k = mark_count(store, e, d);
    let found = find_outside(store, e, d, id);
    raise_marks(store, e, d);
    if let Some(j) = found {
        complete_mark(store, e, d, k);
        remove_outside(store, e, d, j);
    }
}
