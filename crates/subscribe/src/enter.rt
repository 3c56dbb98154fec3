// A shared consumer that enters. It is put in the state, and then in the ring of its pair.
ghost use Rattle.std.specs.Prelude.{◌≡◌};
ghost use Rattle.rules.specs.State.{dispatcher, put_consumer, put_dispatcher};
ghost use Rattle.rules.specs.State.Kind.{shared};
ghost use Rattle.rules.specs.Commands.{joined, new_consumer};
ghost use Rattle.layout.specs.Fields.{state_changed};
ghost use Rattle.subscribe.specs.Seats.{Seats, Joins};
ghost use Rattle.dispatcher.specs.Pairs.{pair_in};

use super::join::join;
use super::seat::seat_consumer;
use command_parts::Kind;
use dispatcher::table::Pair;

// The shared consumer `id` is new in the state, or made anew, and is in the ring of its pair.
pub(crate) fn enter(store: &mut [u64], e: usize, id: u64, pair: Pair)
    requires { Seats e store.old id × Joins e store.old id (pair_in pair) }
    ensures { store.new ≡ state_changed store.old
        (λ s. put_dispatcher (put_consumer s (new_consumer id shared (pair_in pair)))
        (joined id (dispatcher s (pair_in pair)))) }
{
    seat_consumer(store, e, id, Kind::Shared, pair);
    join(store, e, pair, id);
}
