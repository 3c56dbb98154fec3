// One group of a lent list, a message id and its words, and what stands before the first group that is left.
ghost use Rattle.std.specs.Prelude.{◌≡◌};
ghost use Rattle.bits.specs.Bits.{and_into};
ghost use Rattle.bits.specs.Four.{four, words};
ghost use Rattle.groups.specs.Lent.{group_of, SplitsGroup};

use bits::UnackedBits;
use message_id::Id;

// The most words of a group.
const MOST_ACK_SET_WORDS: u64 = 16;

// Its id stands as two numbers: the borrow checker has no rule yet for a struct by value with a borrow and a model in it.
#[derive(Clone, Copy)]
pub struct Group<'a> {
    pub ledger: u64,
    pub entry: u64,
    pub words: &'a [u64],
}

// The first group of a list and the words after it; none where no whole group of at most 16 words stands there.
pub(crate) fn split_group(list: &[u64]) -> Option<(Group, &[u64])>
    ensures { SplitsGroup list.now result }
{
    let [ledger, entry, n, rest @ ..] = list else {
        return None;
    };
    if MOST_ACK_SET_WORDS < *n {
        return None;
    }
    let n = *n as usize;
    if rest.len() < n {
        return None;
    }
    let (words, after) = rest.split_at(n);
    let group = Group {
        ledger: *ledger,
        entry: *entry,
        words,
    };
    Some((group, after))
}

impl<'a> Group<'a> {
    // Its id.
    pub fn id(self) -> Id
        ensures { result ≡ (group_of self.entry).id }
    {
        Id {
            ledger: self.ledger,
            entry: self.entry,
        }
    }

    // The bits that are also set in the words of the group.
    pub fn and(self, bits: UnackedBits) -> UnackedBits
        ensures { result ≡ four (and_into (words bits) (group_of self.entry).words) }
    {
        bits.and_into(self.words)
    }
}
