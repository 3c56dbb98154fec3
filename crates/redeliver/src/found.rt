// The nacked positions of a plain consumer, which what it hands back joins. How many there would be
// is counted first; then each position found is written at their end. The slot of the topic is looked for once for a list:
// what is written moves no topic.
ghost use Rattle.std.specs.Prelude.{◌≡◌, ◌++◌, ◌∷◌, [], ◌+◌, ◌≤◌, length};
ghost use Rattle.rules.specs.State.{ledger_of};
ghost use Rattle.rules.specs.Commands.{with_reading, found_positions};
ghost use Rattle.layout.specs.Layout.{decode};
ghost use Rattle.layout.specs.Fields.{consumer_now, topic_now, consumer_changed};
ghost use Rattle.layout.specs.Placed.{ConsumerIn, TopicIn};
ghost use Rattle.groups.specs.Lent.{group_of, groups_in};

use consumer::fields::topic;
use consumer::nacked::append_nacked;
use groups::group::Group;
use groups::list::Groups;
use topic::find::position_of;
use topic::table::existing_topic;

// 1 if the id of a group is in the ledger of topic `t`, else 0.
fn found_here(store: &[u64], e: usize, t: usize, group: Group) -> usize
    requires { TopicIn e store.now t }
    ensures { result ≡ length (found_positions (topic_now store.now t).messages (group_of group.entry ∷ [])) }
{
    usize::from(position_of(store, e, t, group.id()).is_some())
}

// How many groups have an id in the ledger of consumer `i`.
pub(crate) fn found_count(store: &[u64], e: usize, i: usize, groups: Groups) -> usize
    requires { ConsumerIn e store.now i }
    ensures { result ≡ length (found_positions (ledger_of (decode store.now) (consumer_now store.now i).pair.topic)
        (groups_in groups.entry)) }
{
    let Some(t) = existing_topic(store, e, topic(store, e, i)) else {
        return 0;
    };
    let mut count = 0;
    for group in groups {
        count += found_here(store, e, t, group);
    }
    count
}

// The position of the id of a group in the ledger of topic `t` joins the nacked positions of consumer `i` if it is found.
fn join_here(store: &mut [u64], e: usize, i: usize, t: usize, group: Group)
    requires { ConsumerIn e store.old i × TopicIn e store.old t × (length (consumer_now store.old i).nacked
        + length (found_positions (topic_now store.old t).messages (group_of group ∷ [])) ≤ 64) }
    ensures { store.new ≡ consumer_changed store.old i (λ x. with_reading x x.cursor (x.nacked
        ++ found_positions (topic_now store.old t).messages (group_of group.entry ∷ []))) }
{
    if let Some(k) = position_of(store, e, t, group.id()) {
        append_nacked(store, e, i, k);
    }
}

// The found positions of groups join the nacked positions of consumer `i`, repeats included.
pub(crate) fn join_found(store: &mut [u64], e: usize, i: usize, groups: Groups)
    requires { ConsumerIn e store.old i × (length ((consumer_now store.old i).nacked
        ++ found_positions (ledger_of (decode store.old) (consumer_now store.old i).pair.topic) (groups_in groups)) ≤ 64) }
    ensures { store.new ≡ consumer_changed store.old i (λ x. with_reading x x.cursor (x.nacked
        ++ found_positions (ledger_of (decode store.old) x.pair.topic) (groups_in groups.entry))) }
{
    let Some(t) = existing_topic(store, e, topic(store, e, i)) else {
        return;
    };
    for group in groups {
        join_here(store, e, i, t, group);
    }
}
