// Stamps by which positions are told apart: a position that was met carries the stamp. Each dispatcher has a stamp of its own,
// so that the list need not be cleared between two.
ghost use Rattle.std.specs.Prelude.{◌+◌, ◌≡◌, length};
ghost use Rattle.check_state.specs.Stamps.{Under};

use store::limits::MOST_ENTRIES;

// A stamp for each position, and the one that is put on now. None is above it.
#[derive(Drop)]
pub(crate) struct Stamps {
    pub(crate) list: [u8; MOST_ENTRIES as usize],
    pub(crate) stamp: u8,
    pub(crate) ghost whole: { length list ≡ 4096 },
    pub(crate) ghost under: { Under list (stamp + 1) },
}

impl Stamps {
    ghost use Rattle.std.specs.Prelude.{◌≡◌, ◌≤◌, ◌<◌};
    ghost use Rattle.check_state.specs.Places.{Unused, Stepped};

    // The next stamp, which no position carries yet.
    pub(crate) fn advance(&mut self)
        requires { self.old.stamp < 255 }
        ensures { (self.new.stamp ≡ self.old.stamp + 1) × Unused self.new }
    {
        self.stamp += 1;
    }

    // Whether a position is below the cursor and carries the stamp not yet; then it does.
    pub(crate) fn place(&mut self, position: usize, cursor: usize) -> bool
        requires { cursor ≤ 4096 }
        ensures { Stepped position cursor self.old self.new result }
    {
        if cursor <= position || self.list[position] == self.stamp {
            return false;
        }
        self.list[position] = self.stamp;
        true
    }
}
