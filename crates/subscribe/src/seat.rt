// A consumer put in the state as a subscribe makes it. It takes the place of the live one of its id,
// or stands at its place among the others.
ghost use Rattle.std.specs.Prelude.{◌≡◌, ◌≤◌, ◌<◌, length};
ghost use Rattle.rules.specs.State.{by_id, put_consumer};
ghost use Rattle.rules.specs.Commands.{new_consumer};
ghost use Rattle.layout.specs.Layout.{decode};
ghost use Rattle.layout.specs.Canon.{CanonStore};
ghost use Rattle.layout.specs.Fields.{state_changed};
ghost use Rattle.store.specs.Find.{slot};
ghost use Rattle.command_parts.specs.Parts.{kind_of};
ghost use Rattle.subscribe.specs.Seats.{Seats};
ghost use Rattle.dispatcher.specs.Pairs.{pair_in};

use command_parts::Kind;
use consumer::lookup::find_consumer;
use consumer::make::make_consumer;
use consumer::table::{open_consumer, place_of};
use dispatcher::table::Pair;

// The consumer `id` is new in the state, or made anew.
pub(crate) fn seat_consumer(store: &mut [u64], e: usize, id: u64, kind: Kind, pair: Pair)
    requires { Seats e store.old id }
    ensures { store.new ≡ state_changed store.old
        (λ s. put_consumer s (new_consumer id (kind_of kind) (pair_in pair))) }
{
    let Some(i) = find_consumer(store, e, id) else {
        insert_consumer(store, e, id, kind, pair);
        return;
    };
    make_consumer(store, e, i, id, kind, pair);
}

// The consumer `id`, which is not live, is made at its place.
fn insert_consumer(store: &mut [u64], e: usize, id: u64, kind: Kind, pair: Pair)
    requires { CanonStore e store.old × (length (decode store.old).consumers ≤ slot by_id id (decode store.old).consumers)
        × (length (decode store.old).consumers < 32) }
    ensures { store.new ≡ state_changed store.old
        (λ s. put_consumer s (new_consumer id (kind_of kind) (pair_in pair))) }
{
    let i = place_of(store, e, id);
    open_consumer(store, e, i);
    make_consumer(store, e, i, id, kind, pair);
}
