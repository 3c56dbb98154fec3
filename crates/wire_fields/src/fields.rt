// The fields of a message, one after the other, for the walks of the readers. A walk is also the test that the message is well
// formed: where bytes are left that are no field, it is told so.
ghost use Rattle.std.specs.Prelude.{◌≡◌, ◌≤◌, length};

use super::field::{Field, field_at};

// The fields from a place of a message on.
#[derive(Clone, Copy)]
pub struct Fields<'a> {
    pub m: &'a [u8],
    pub at: usize,
    pub ghost inside: { at ≤ length m.now },
}

impl<'a> Fields<'a> {
    // All fields of a message.
    pub fn of(m: &'a [u8]) -> Fields<'a>
        ensures { (result.m.now ≡ m.now) × (result.at ≡ 0) }
    {
        Fields { m, at: 0 }
    }
}

// A field, or that none stands where the walk is; then it ends.
impl<'a> Iterator for Fields<'a> {
    ghost use Rattle.wire_fields.specs.Ahead.{bytes_left, Steps};

    type Item = Option<Field>;

    ghost next_gives = { Steps };

    ghost remaining = { bytes_left };

    #[inline(always)]
    fn next(&mut self) -> Option<Option<Field>> {
        if self.m.len() <= self.at {
            return None;
        }
        let Some(f) = field_at(self.m, self.at) else {
            self.at = self.m.len();
            return Some(None);
        };
        self.at = f.next;
        Some(Some(f))
    }
}
