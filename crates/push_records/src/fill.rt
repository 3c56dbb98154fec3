// A lent list of dispatches, filled from flat records of 13 words.
ghost use Rattle.std.specs.Prelude.{◌≡◌, ◌++◌, ◌*◌, ◌≤◌, length, drop};
ghost use Rattle.push_records.specs.Listed.{records_in};

use record::{Dispatch, RECORD_WORDS, read_record};

// The first `n` dispatches of a list become those of flat words; the later ones stay.
pub(crate) fn fill(list: &mut [Dispatch], flat: &[u64], n: usize)
    requires { (n ≤ length list.old) × (n * 13 ≤ length flat.now) }
    ensures { list.new ≡ records_in flat.now n ++ drop n list.old }
{
    for i in 0..n {
        let dispatch = read_record(&flat[i * RECORD_WORDS..]);
        list[i] = dispatch;
    }
}
