// One walk over all fields of a message that keeps what stands under some numbers. A number is asked for by the tag that its field
// has, number × 8 + wire type.
ghost use Rattle.std.specs.Prelude.{◌≡◌};
ghost use Rattle.wire_fields.specs.Picked.{wanted_of, content_of, seen_field, all_seen, picked};

use super::field::{Field, VARINT, WIRE_TYPES};
use super::fields::Fields;

// What was seen under a number: how many fields, MANY where one had another wire type; and of the last its number or where its
// bytes begin, and where it ends. A field of another wire type counts as too many fields, since every reader refuses both
// alike. Its default is that nothing was seen yet.
#[derive(Clone, Copy, Default)]
pub struct Seen {
    pub count: u64,
    pub content: u64,
    pub next: usize,
}

// More fields than any reader takes.
const MANY: u64 = 65;

// A varint's number; of another field where its bytes begin.
#[tactic(auto, unfolding(crate::specs::Picked::content_of))]
fn content_of(f: Field) -> u64
    ensures { result ≡ content_of f }
{
    if f.wire == VARINT {
        return f.value;
    }
    f.start as u64
}

impl Seen {
    // One field more.
    #[tactic(auto, unfolding(crate::specs::Picked::seen_field, crate::specs::Picked::seen_with))]
    fn with(self, wanted: u64, f: Field) -> Seen
        ensures { result ≡ seen_field (wanted_of wanted) self f }
    {
        if f.number != wanted / WIRE_TYPES {
            return self;
        }
        if f.wire != wanted % WIRE_TYPES {
            return Seen {
                count: MANY,
                content: 0,
                next: 0,
            };
        }
        if MANY <= self.count {
            return self;
        }
        Seen {
            count: self.count + 1,
            content: content_of(f),
            next: f.next,
        }
    }
}

// One field more under each of some numbers.
fn all_with<const N: usize>(seen: [Seen; N], tags: [u64; N], f: Field) -> [Seen; N]
    ensures { result ≡ all_seen tags.entry seen.entry f }
{
    let mut now = seen;
    for i in 0..N {
        now[i] = seen[i].with(tags[i], f);
    }
    now
}

// What stands under some numbers of a message that is well formed.
pub fn pick<const N: usize>(m: &[u8], tags: [u64; N]) -> Option<[Seen; N]>
    ensures { result ≡ picked m.now tags.entry }
{
    let mut seen = [Seen::default(); N];
    for field in Fields::of(m) {
        seen = all_with(seen, tags, field?);
    }
    Some(seen)
}
