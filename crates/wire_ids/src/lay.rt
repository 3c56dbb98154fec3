// The second pass: the ids are laid into a lent list as groups of ledger, entry, how many words, and the words. Each is laid in
// one walk over its fields, which were tested before. The list goes with a place in it: `Laid` says at once what the
// whole list is then.
ghost use Rattle.std.specs.Prelude.{◌≡◌, ◌+◌, ◌≤◌, length};
ghost use Rattle.words.specs.Act.{lay};
ghost use Rattle.wire.specs.Ids.{list_words};
ghost use Rattle.wire_fields.specs.Values.{Laid};
ghost use Rattle.wire_ids.specs.Groups.{id_words, count_with, Put, IdRoom, ids_there, Listed};

use super::id::{ACK_SET, HEAD_WORDS};
use wire_fields::fields::Fields;
use wire_fields::format::{ENTRY_ID, LEDGER_ID};

// Puts the number of a field into its place in the group that begins at `to` and has `n` words so far; answers how many it has
// then.
#[tactic(auto, unfolding(crate::specs::Groups::count_with, crate::specs::Groups::put_in))]
fn put(list: &mut [u64], to: usize, n: usize, number: u64, value: u64) -> usize
    requires { to + 3 + count_with number n ≤ length list.old }
    ensures { Put list.old to n number value list.new result }
{
    match number {
        ACK_SET => {
            list[to + HEAD_WORDS + n] = value;
            n + 1
        }
        LEDGER_ID => {
            list[to] = value;
            n
        }
        ENTRY_ID => {
            list[to + 1] = value;
            n
        }
        _ => n,
    }
}

// Lays the id whose message is `m`, and answers the place after it.
fn lay_id(m: &[u8], list: &mut [u64], to: usize) -> usize
    requires { IdRoom m.now (length list.old) to }
    ensures { Laid list.old to (id_words m.now) list.new result }
{
    let mut n = 0;
    for field in Fields::of(m) {
        let Some(f) = field else {
            return to;
        };
        n = put(list, to, n, f.number, f.value);
    }
    list[to + 2] = n as u64;
    to + HEAD_WORDS + n
}

// Lays the ids under a number of a message, from the list's start on.
pub fn lay_ids(m: &[u8], number: u64, list: &mut [u64])
    requires { Listed m.now number (length list.old) }
    ensures { list.new ≡ (lay (list_words (ids_there m.now number))).run 0 list.old }
{
    let mut to = 0;
    for field in Fields::of(m) {
        let Some(f) = field else {
            return;
        };
        if f.number != number {
            continue;
        }
        to = lay_id(&m[f.start..f.next], list, to);
    }
}
