// The permits of a dispatcher (document 01: balance), in excess form.
ghost use Rattle.std.specs.Prelude.{◌≡◌};
ghost use Rattle.rules.specs.Dispatcher.{with_total};
ghost use Rattle.layout.specs.Fields.{dispatcher_now, dispatcher_changed};
ghost use Rattle.layout.specs.Placed.{DispatcherIn};

use store::offsets::{TOTAL_IN, dispatcher_at};

// The total of dispatcher `d`.
pub fn total_available_permits(store: &[u64], e: usize, d: usize) -> u64
    requires { DispatcherIn e store.now d }
    ensures { result ≡ (dispatcher_now store.now d).total_available_permits }
{
    let at = dispatcher_at(e, d);
    store[at + TOTAL_IN]
}

// Dispatcher `d` gets another total.
pub fn set_total_available_permits(store: &mut [u64], e: usize, d: usize, total: u64)
    requires { DispatcherIn e store.old d }
    ensures { store.new ≡ dispatcher_changed store.old d (λ x. with_total x total) }
{
    let at = dispatcher_at(e, d);
    store[at + TOTAL_IN] = total;
}
