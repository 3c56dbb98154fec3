// What dispatching an entry costs: the ones in its stored bits, else its batch size, at least 1.
ghost use Rattle.std.specs.Prelude.{◌≡◌, ◌≤◌, ◌<◌};
ghost use Rattle.push_laws.specs.Local.{price_of};
ghost use Rattle.push_turn.specs.Turns.{fixed_now, ServedHere};

use super::service::Served;
use dispatcher::marks::load_mark;
use topic::message::batch_size;

// The cost of the entry at position `k` of a dispatcher.
pub(crate) fn price(store: &[u64], served: Served, k: usize) -> u64
    requires { ServedHere served store.now × (k < served.n) }
    ensures { (result ≡ price_of (fixed_now store.now served.d) k) × (result ≤ 256) }
{
    let mark = load_mark(store, served.e, served.d, k);
    if mark.unacked.bits_empty() {
        return batch_size(store, served.e, served.t, k).max(1);
    }
    mark.unacked.bits_cardinality()
}
