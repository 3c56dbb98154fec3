// A push into records beside the flat push: the same answer, the same words left in the store and in the
// flat list, and the same dispatches.
#![tactic(auto)]

ghost use Rattle.std.specs.Prelude.{◌≡◌, ◌≤◌, length};
ghost use Rattle.layout.specs.Calls.{after};
ghost use Rattle.cases_line.specs.Words.{same_words};
ghost use Rattle.cases_twin.specs.Twin.{written_back, told, pushed, as_flat};

use push_records::listed::push_listed;
use record::{Dispatch, RECORD_WORDS, write_record};
use told::{number_in, value_in};

// Whether two slices have the same words.
fn same_words(a: &[u64], b: &[u64]) -> bool
    ensures { result ≡ same_words a.now b.now }
{
    a == b
}

// Writes the first `n` dispatches of a list back to flat words, of which there are enough for all.
fn write_back(records: [Dispatch; 64], n: usize, list: &mut [u64])
    requires { (n ≤ 64) × (length list.old ≡ 832) }
    ensures { list.new ≡ written_back records n list.old }
{
    for i in 0..n {
        write_record(&mut list[i * RECORD_WORDS..], records[i]);
    }
}

// How many dispatches an answer of push tells, of at most 64. The runner calls what makers call, whose answer is one word.
fn told(answer: u64) -> usize
    ensures { (result ≡ told answer) × (result ≤ 64) }
{
    if number_in(answer) > 0 {
        return 0;
    }
    value_in(answer).min(64) as usize
}

// Whether a push into records on the copy of a store gives what the flat push gave: its answer, its store
// and its list, of which `room` words were lent: what was not lent is compared too. The list was 0 before, and so is the one that
// the records are written back to.
pub fn as_records(twin: &mut [u64], store: &[u64], list: &[u64], room: usize, answer: u64) -> bool
    requires { room ≤ 832 }
    ensures same { result ≡ as_flat twin.old store.now list.now room answer }
    ensures words { twin.new ≡ after twin.old (pushed room) }
{
    let mut flat = [0u64; 832];
    let pushed = push_listed(twin, &mut flat[..room]);
    if pushed.answer != answer {
        return false;
    }
    if !same_words(twin, store) {
        return false;
    }
    if !same_words(&flat, list) {
        return false;
    }
    let records = pushed.list;
    let mut back = [0u64; 832];
    write_back(records, told(answer), &mut back);
    same_words(&back, list)
}
