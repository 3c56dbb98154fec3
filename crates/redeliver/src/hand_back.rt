// What a shared consumer hands back goes to the end of its dispatcher's queue, and its redelivery
// count rises. An id that the consumer does not hold changes nothing. The slot of the topic is looked for once for a list:
// what is written moves no topic.
ghost use Rattle.std.specs.Prelude.{◌≡◌, ◌<◌, length};
ghost use Rattle.rules.specs.State.{ledger_of};
ghost use Rattle.rules.specs.Commands.{redeliver_id, redeliver_groups};
ghost use Rattle.rules.specs.Valid.{ValidDispatcher};
ghost use Rattle.layout.specs.Layout.{decode};
ghost use Rattle.layout.specs.Fields.{dispatcher_now, topic_now, dispatcher_changed};
ghost use Rattle.layout.specs.Placed.{DispatcherIn, TopicIn};
ghost use Rattle.groups.specs.Lent.{group_of, groups_in};
ghost use Rattle.redeliver.specs.Back.{handed};

use dispatcher::flight::{find_hold, remove_flight};
use dispatcher::marks::raise_count;
use dispatcher::numbers::topic;
use dispatcher::queue::append_queue;
use groups::group::Group;
use groups::list::Groups;
use topic::find::position_of;
use topic::table::existing_topic;

// Entry `j` in flight of dispatcher `d`, which is on position `k`, is handed back. Not inlined, since the search for `j`
// would then carry the places of all that is done here from turn to turn: 64 ids that are held, handed back, take 184,735
// instructions so, and 237,940 inlined.
#[inline(never)]
fn hand_back_held(store: &mut [u64], e: usize, d: usize, j: usize, k: usize)
    requires { DispatcherIn e store.old d × (j < length (dispatcher_now store.old d).in_flight)
        × (length (dispatcher_now store.old d).redelivery < e) × (k < length (dispatcher_now store.old d).marks) }
    ensures { store.new ≡ dispatcher_changed store.old d (handed j k) }
{
    append_queue(store, e, d, k);
    remove_flight(store, e, d, j);
    raise_count(store, e, d, k);
}

// The id of a group, sought in the ledger of topic `t`, the dispatcher's, is handed back if `id` holds it.
fn hand_back(store: &mut [u64], e: usize, d: usize, t: usize, id: u64, group: Group)
    requires { DispatcherIn e store.old d × ValidDispatcher (decode store.old) (dispatcher_now store.old d) × TopicIn e store.old t
        × (ledger_of (decode store.old) (dispatcher_now store.old d).pair.topic ≡ (topic_now store.old t).messages) }
    ensures { store.new ≡ dispatcher_changed store.old d
        (λ x. redeliver_id (ledger_of (decode store.old) x.pair.topic) id x (group_of group.entry).id) }
{
    let Some(k) = position_of(store, e, t, group.id()) else {
        return;
    };
    if let Some(j) = find_hold(store, e, d, id, k) {
        hand_back_held(store, e, d, j, k);
    }
}

// Each id of some groups is handed back, in order, if `id` holds it.
pub(crate) fn hand_back_all(store: &mut [u64], e: usize, d: usize, id: u64, groups: Groups)
    requires { DispatcherIn e store.old d × ValidDispatcher (decode store.old) (dispatcher_now store.old d) }
    ensures { store.new ≡ dispatcher_changed store.old d
        (λ x. redeliver_groups (ledger_of (decode store.old) x.pair.topic) id x (groups_in groups.entry)) }
{
    let Some(t) = existing_topic(store, e, topic(store, e, d)) else {
        return;
    };
    for group in groups {
        hand_back(store, e, d, t, id, group);
    }
}
