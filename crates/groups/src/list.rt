// A lent list of the form of groups: at most 64 of them, each of at most 16 words, ending exactly. It is gone through group
// by group.
ghost use Rattle.std.specs.Prelude.{◌≡◌, true};
ghost use Rattle.rules.specs.Table.{is_some};
ghost use Rattle.rules.specs.Groups.{groups};

use super::group::{Group, split_group};

// The most ids of a list.
const MOST_IDS: usize = 64;

// The groups that are left of a list of the form.
#[derive(Clone, Copy)]
pub struct Groups<'a> {
    pub list: &'a [u64],
    pub ghost formed: { is_some (groups list.now) ≡ true },
}

impl<'a> Iterator for Groups<'a> {
    ghost use Rattle.std.specs.Iterator.{item_count, YieldsFirstBy};
    ghost use Rattle.groups.specs.Lent.{group_of, groups_in};

    type Item = Group<'a>;

    ghost next_gives = { YieldsFirstBy group_of groups_in };

    ghost remaining = { item_count groups_in };

    fn next(&mut self) -> Option<Group<'a>> {
        let (group, rest) = split_group(self.list)?;
        self.list = rest;
        Some(group)
    }
}

// Whether a list is at most 64 groups, ending exactly.
fn list_right(list: &[u64]) -> bool
    ensures { result ≡ is_some (groups list.now) }
{
    let mut rest = list;
    for _ in 0..MOST_IDS {
        let Some((_, after)) = split_group(rest) else {
            break;
        };
        rest = after;
    }
    rest.is_empty()
}

impl<'a> Groups<'a> {
    ghost use Rattle.std.specs.Prelude.{false, MatchOption};

    // The groups of a list; none where it is not of the form. `then_some` would make the value before the test that its
    // ghost field needs.
    pub fn of(list: &'a [u64]) -> Option<Groups<'a>>
        ensures { MatchOption result (is_some (groups list.now) ≡ false) (λ g. g.list.now ≡ list.now) }
    {
        if list_right(list) {
            Some(Groups { list })
        } else {
            None
        }
    }
}
