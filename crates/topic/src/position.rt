// The position of the id of a group in the ledger of a topic.
ghost use Rattle.std.specs.Prelude.{◌≡◌};
ghost use Rattle.rules.specs.State.{ledger_of};
ghost use Rattle.layout.specs.Layout.{decode};
ghost use Rattle.layout.specs.Canon.{CanonStore};
ghost use Rattle.groups.specs.Lent.{group_of};
ghost use Rattle.store.specs.Found.{found};
ghost use Rattle.topic.specs.Ids.{by_message_id};

use super::find::position_of;
use super::table::existing_topic;
use groups::group::Group;

// The position of the id of a group.
pub fn position_in(store: &[u64], e: usize, topic: u64, group: Group) -> Option<usize>
    requires { CanonStore e store.now }
    ensures { result ≡ found by_message_id (group_of group.entry).id (ledger_of (decode store.now) topic) }
{
    let t = existing_topic(store, e, topic)?;
    position_of(store, e, t, group.id())
}
