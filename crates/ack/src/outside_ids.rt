// How many ids an ack would put outside the ledger, told before anything is written. A group counts
// if its id is neither in the ledger nor outside it yet, and no later group of the list has it.
ghost use Rattle.std.specs.Prelude.{◌≡◌, ltb, length};
ghost use Rattle.rules.specs.State.{ledger_of};
ghost use Rattle.rules.specs.Ledger.{holds_id};
ghost use Rattle.rules.specs.Dispatcher.{is_outside};
ghost use Rattle.rules.specs.Commands.{ack_groups};
ghost use Rattle.layout.specs.Layout.{decode};
ghost use Rattle.layout.specs.Canon.{CanonStore};
ghost use Rattle.layout.specs.Fields.{dispatcher_now};
ghost use Rattle.layout.specs.Placed.{DispatcherIn};
ghost use Rattle.groups.specs.Lent.{group_of, groups_in};
ghost use Rattle.ack.specs.NewIds.{named, new_bit, new_count};

use dispatcher::outside::{find_outside, outside_count};
use groups::group::Group;
use groups::list::Groups;
use message_id::Id;
use store::limits::MOST_OUTSIDE;
use topic::position::position_in;

// Whether the id of a group is in the ledger of a topic.
fn in_ledger(store: &[u64], e: usize, topic: u64, group: Group) -> bool
    requires { CanonStore e store.now }
    ensures { result ≡ holds_id (group_of group.entry).id (ledger_of (decode store.now) topic) }
{
    position_in(store, e, topic, group).is_some()
}

// Whether an id is among the outside ids of dispatcher `d`.
pub(crate) fn is_outside(store: &[u64], e: usize, d: usize, id: Id) -> bool
    requires { DispatcherIn e store.now d }
    ensures { result ≡ is_outside id (dispatcher_now store.now d) }
{
    find_outside(store, e, d, id).is_some()
}

// Whether some group of those that are left has an id.
fn names(left: Groups, id: Id) -> bool
    ensures { result ≡ named id (groups_in left.entry) }
{
    for later in left {
        if id == later.id() {
            return true;
        }
    }
    false
}

// 1 if a group counts with those that are left after it, else 0.
fn new_here(store: &[u64], e: usize, d: usize, topic: u64, group: Group, left: Groups) -> usize
    requires { DispatcherIn e store.now d }
    ensures { result ≡ new_bit (ledger_of (decode store.now) topic) (dispatcher_now store.now d).outside
        (group_of group.entry) (groups_in left.entry) }
{
    let id = group.id();
    let known = in_ledger(store, e, topic, group) || is_outside(store, e, d, id);
    usize::from(!(known || names(left, id)))
}

// How many groups count.
fn new_ids(store: &[u64], e: usize, d: usize, topic: u64, groups: Groups) -> usize
    requires { DispatcherIn e store.now d }
    ensures { result ≡ new_count (ledger_of (decode store.now) topic) (dispatcher_now store.now d).outside
        (groups_in groups.entry) }
{
    // A `while`, since what is left is read in the turn.
    let mut left = groups;
    let mut count = 0;
    while let Some(group) = left.next() {
        count += new_here(store, e, d, topic, group, left);
    }
    count
}

// Whether more than 64 ids would stand outside the ledger after an ack of groups.
pub(crate) fn passes_64(store: &[u64], e: usize, d: usize, topic: u64, groups: Groups) -> bool
    requires { DispatcherIn e store.now d }
    ensures { result ≡ ltb 64 (length (ack_groups (ledger_of (decode store.now) topic) (dispatcher_now store.now d)
        (groups_in groups.entry)).outside) }
{
    let n = outside_count(store, e, d);
    MOST_OUTSIDE < n + new_ids(store, e, d, topic, groups)
}
