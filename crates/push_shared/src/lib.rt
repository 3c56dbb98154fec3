// The dispatchers served in the order in which they were made, the permits carried from each to the next:
// `push_pending_shared` in broker.rs.
#![tactic(auto)]

mod deliver;
mod serve;

ghost use Rattle.std.specs.Prelude.{◌≡◌, true, map, ◌*◌, ◌≤◌, length};
ghost use Rattle.words.specs.Codec.{All};
ghost use Rattle.rules.specs.State.{with_dispatchers};
ghost use Rattle.layout.specs.Layout.{decode, spells};
ghost use Rattle.layout.specs.Whole.{ShapedDispatcher};
ghost use Rattle.layout.specs.Fields.{state_changed};
ghost use Rattle.record.specs.Flat.{filled};
ghost use Rattle.push_laws.specs.Shared.{services, permits_left, served_dispatcher};
ghost use Rattle.push_turn.specs.Turns.{services_now, shared_records_now};

use dispatcher::table::dispatcher_count;
use record::RECORD_WORDS;
use serve::serve_dispatcher;

// Serves every dispatcher. The list begins with the records; the answer is how many there are.
pub fn push_pending_shared(
    store: &mut [u64],
    e: usize,
    permits: &mut [u64],
    list: &mut [u64],
) -> usize
    requires { (spells store.old ≡ true) × (e ≡ (decode store.old).entries) × (length permits.old ≡ length (decode store.old).consumers)
        × (length (shared_records_now store.old permits.old) * 13 ≤ length list.old) }
    ensures value { result ≡ length (shared_records_now store.old permits.old) }
    ensures words { store.new ≡ state_changed store.old
        (λ s. with_dispatchers s (map (served_dispatcher s) (services s s.dispatchers permits.old))) }
    ensures permits { permits.new ≡ permits_left permits.old (services_now store.old permits.old) }
    ensures records { list.new ≡ filled list.old 0 (shared_records_now store.old permits.old) }
    ensures fits { All (ShapedDispatcher e)
        (map (served_dispatcher (decode store.old)) (services_now store.old permits.old)) }
{
    let n = dispatcher_count(store, e);
    let mut made = 0;
    for d in 0..n {
        made += serve_dispatcher(store, e, d, permits, &mut list[made * RECORD_WORDS..]);
    }
    made
}
