// A dispatcher of a store, and the ledger of its topic.
ghost use Rattle.check_state.specs.Dispatchers.{DispatcherRoom, LedgerIn};

use check_rows::PairRows;

// Where the words of a dispatcher begin, and the ledger of its topic as rows of the same store.
#[derive(Clone, Copy)]
pub(crate) struct DispatcherAt<'a> {
    pub(crate) store: &'a [u64],
    pub(crate) e: usize,
    pub(crate) at: usize,
    pub(crate) ledger: PairRows<'a>,
    pub(crate) ghost room: { DispatcherRoom e store.now at },
    pub(crate) ghost ledger_in: { LedgerIn e store.now ledger },
}
