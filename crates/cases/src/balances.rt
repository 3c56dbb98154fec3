// The balance check, which no operation makes: of each dispatcher beside its total.
ghost use Rattle.std.specs.Prelude.{◌≡◌, true};
ghost use Rattle.layout.specs.Layout as layout;
ghost use Rattle.layout.specs.Canon.{CanonStore};

use balance::balance_check;
use cases_show::{show_balance, show_count};
use check_state::spells;
use dispatcher::table::dispatcher_count;
use dispatcher::total::total_available_permits;
use std::io;
use store::header::entries;

// Prints the balance check of every dispatcher, in the order in which they were made, a line each.
pub(crate) fn show_balances(rt: &impl Print, store: &[u64]) -> io::Result<()> {
    if spells(store) {
        let e = entries(store);
        show_each(rt, store, e)
    } else {
        println!(rt; "no state")
    }
}

// The same of a store that spells a state.
fn show_each(rt: &impl Print, store: &[u64], e: usize) -> io::Result<()>
    requires { CanonStore e store.now × (layout.spells store.now ≡ true) }
{
    let n = dispatcher_count(store, e);
    show_count(rt, n as u64)?;
    for d in 0..n {
        let balance = balance_check(store, e, d);
        let total = total_available_permits(store, e, d);
        show_balance(rt, d as u64, balance, total)?;
    }
    Ok(())
}
