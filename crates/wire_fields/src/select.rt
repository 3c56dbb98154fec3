// What a reader takes out of what was seen under a number: a number or a part that has to be there, a number that may be absent,
// or several fields. A singular field stands once, with the wire type of its declaration and a number of its width.
ghost use Rattle.std.specs.Prelude.{◌≡◌};
ghost use Rattle.wire_fields.specs.Selected.{fits, is_one, number, optional_number, place, at_most};

use super::format::UINT32_END;
use super::pick::Seen;

// Where a part begins, and where it ends.
#[derive(Clone, Copy)]
pub struct Place {
    pub start: usize,
    pub next: usize,
}

// The width of a number, by its declaration; a count is an int32 from 0 on.
#[derive(Clone, Copy, Debug, PartialEq, Eq)]
pub enum Width {
    Uint64,
    Uint32,
    Int32,
    Count,
}

// An int32 is below the first or, negative in ten bytes, from the second on.
const INT32_END: u64 = 0x8000_0000;

const INT32_NEGATIVE: u64 = 0xffff_ffff_8000_0000;

impl Width {
    // Whether a number is of the width. The limits are the definitions' own; an int32 is also ten bytes negative.
    #[tactic(auto, unfolding(wire::specs::Select::uint64, wire::specs::Select::uint32, wire::specs::Select::int32, wire::specs::Select::count))]
    fn fits(self, value: u64) -> bool
        ensures { result ≡ fits self value }
    {
        match self {
            Width::Uint64 => true,
            Width::Uint32 => value < UINT32_END,
            Width::Int32 => value < INT32_END || INT32_NEGATIVE <= value,
            Width::Count => value < INT32_END,
        }
    }
}

impl Seen {
    // Whether one field was seen, of the right wire type.
    #[tactic(auto, unfolding(crate::specs::Selected::is_one))]
    fn is_one(self) -> bool
        ensures { result ≡ is_one self }
    {
        self.count == 1
    }

    // A number that has to be there.
    #[tactic(auto, unfolding(crate::specs::Selected::number))]
    pub fn required(self, width: Width) -> Option<u64>
        ensures { result ≡ number (fits width) self }
    {
        if !self.is_one() {
            return None;
        }
        if !width.fits(self.content) {
            return None;
        }
        Some(self.content)
    }

    // A number that may be absent, and is 0 then.
    #[tactic(auto, unfolding(crate::specs::Selected::optional_number))]
    pub fn optional(self, width: Width) -> Option<u64>
        ensures { result ≡ optional_number (fits width) self }
    {
        if self.count == 0 {
            return Some(0);
        }
        self.required(width)
    }

    // A part that has to be there.
    #[tactic(auto, unfolding(crate::specs::Selected::place))]
    pub fn part(self) -> Option<Place>
        ensures { result ≡ place self }
    {
        if !self.is_one() {
            return None;
        }
        Some(Place {
            start: self.content as usize,
            next: self.next,
        })
    }

    // How many fields there are, at most some number and all of the right wire type.
    #[tactic(auto, unfolding(crate::specs::Selected::at_most))]
    pub fn several(self, most: u64) -> Option<u64>
        ensures { result ≡ at_most most self }
    {
        if most < self.count {
            return None;
        }
        Some(self.count)
    }
}
