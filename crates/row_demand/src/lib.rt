// Demand 3 is a fact about the exported functions, for every list of calls (the customer's promise: a low reading is honest):
// here is code that opens a store and plays any script on it, with a contract that says what demand 3 promises of the words it
// leaves, the book told by script, answers and list alone; and code that plays one more. Both are proved from the exports'
// contracts and the theorems over rows alone. Nothing depends on this crate.
#![tactic(auto)]

ghost use Rattle.std.specs.Prelude.{◌≡◌, true, ℕ, ◌≤◌, length};
ghost use Rattle.rules.specs.Calls.{needed};
ghost use Rattle.rules.specs.Book.{Book, empty_book};
ghost use Rattle.layout.specs.Calls.{open_after};
ghost use Rattle.layout.specs.Demand.{WordsAccounted};
ghost use Rattle.row.specs.Row.{RowLeft};
ghost use Rattle.row.specs.Demand.{row_replaces_none, enter_row, TellsOf};

use broker::broker_open;
use broker::rows::broker_calls;

// Opens a store for `entries` entries per topic, with the leak switch off, and plays a script on it. Whatever its calls come to,
// done or refused, no permit has leaked and no message is lost or doubled, if no live id was replaced.
pub fn open_and_play(
    store: &mut [u64],
    entries: u64,
    noop: u64,
    script: &[u64],
    answers: &mut [u64],
    list: &mut [u64],
) -> u64
    ensures row { RowLeft (open_after store.old entries 0 noop) script.now answers.old list.old
        result store.new answers.new list.new }
    ensures accounted { 1 ≤ entries → entries ≤ 4096 → needed entries ≤ length store.old
        → row_replaces_none noop empty_book result script.now answers.new list.new ≡ true
        → WordsAccounted (record {
          words = store.new;
          book = enter_row empty_book result script.now answers.new list.new;
        }) }
{
    broker_open(store, entries, 0, noop);
    broker_calls(store, script, answers, list)
}

// Plays one more script on words that a book tells of: the book that is told of this row too tells of the words after it, and
// in them everything is accounted for. So of any number of rows, one after the other.
pub fn play_on(store: &mut [u64], script: &[u64], answers: &mut [u64], list: &mut [u64]) -> u64
    ensures row { RowLeft store.old script.now answers.old list.old
        result store.new answers.new list.new }
    ensures told { (noop : ℕ) (b : Book) → TellsOf noop (record { words = store.old; book = b })
        → row_replaces_none noop b result script.now answers.new list.new ≡ true
        → TellsOf noop (record {
          words = store.new;
          book = enter_row b result script.now answers.new list.new;
        }) }
    ensures accounted { (noop : ℕ) (b : Book) → TellsOf noop (record { words = store.old; book = b })
        → row_replaces_none noop b result script.now answers.new list.new ≡ true
        → WordsAccounted (record {
          words = store.new;
          book = enter_row b result script.now answers.new list.new;
        }) }
{
    broker_calls(store, script, answers, list)
}
