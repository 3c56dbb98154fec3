// A consumer leaves its dispatcher: what it holds goes back, its id leaves the ring, its permits leave the total.
ghost use Rattle.std.specs.Prelude.{◌≡◌, ◌+◌, ◌≤◌, length};
ghost use Rattle.rules.specs.Commands.{left_by};
ghost use Rattle.layout.specs.Fields.{dispatcher_now, dispatcher_changed};
ghost use Rattle.layout.specs.Placed.{DispatcherIn};
ghost use Rattle.close.specs.Leaving.{next_of, out_of_ring, MemberOf};

use dispatcher::numbers::{next, set_next};
use dispatcher::returns::return_held;
use dispatcher::ring::{find_ring, remove_ring, ring_count};
use dispatcher::total::set_total_available_permits;

// The next slot in a ring that has `n` ids left.
fn next_of(next: usize, n: usize) -> usize
    ensures { result ≡ next_of next n }
{
    if n == 0 {
        return 0;
    }
    next % n
}

// `id` leaves the ring of dispatcher `d`, and next stays in what is left of it.
fn leave_ring(store: &mut [u64], e: usize, d: usize, id: u64)
    requires { DispatcherIn e store.old d × MemberOf id (dispatcher_now store.old d) }
    ensures { store.new ≡ dispatcher_changed store.old d (out_of_ring id) }
{
    let j = find_ring(store, e, d, id).unwrap();
    let to = next_of(next(store, e, d), ring_count(store, e, d) - 1);
    remove_ring(store, e, d, j);
    set_next(store, e, d, to);
}

// `id` leaves dispatcher `d`, which then has the permits `total`.
pub(crate) fn leave(store: &mut [u64], e: usize, d: usize, id: u64, total: u64)
    requires { DispatcherIn e store.old d × MemberOf id (dispatcher_now store.old d)
        × (length (dispatcher_now store.old d).redelivery + length (dispatcher_now store.old d).in_flight ≤ e) }
    ensures { store.new ≡ dispatcher_changed store.old d (left_by id total) }
{
    return_held(store, e, d, id);
    leave_ring(store, e, d, id);
    set_total_available_permits(store, e, d, total);
}
