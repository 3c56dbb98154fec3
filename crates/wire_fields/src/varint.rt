// A varint at a place of a message: seven bits a byte, the lowest first, at most ten bytes and 64 bits.
ghost use Rattle.std.specs.Prelude.{◌≡◌, ◌≤◌, length};
ghost use Rattle.wire_fields.specs.Found.{varint_at, Partway};

// A varint's number, and the place after it.
#[derive(Clone, Copy)]
pub struct Varint {
    pub value: u64,
    pub next: usize,
}

// The bytes before the last that a varint can have, and how many bits each has.
const MOST_BEFORE: usize = 9;

const BITS: usize = 7;

// A byte that another follows is this much or more.
pub const MORE: u64 = 128;

// The varint at a place. Most have one byte, which is read without the loop.
#[inline(always)]
pub fn varint_at(m: &[u8], at: usize) -> Option<Varint>
    requires { at ≤ length m.now }
    ensures { result ≡ varint_at m.now at }
{
    if m.len() <= at {
        return None;
    }
    let b = u64::from(m[at]);
    if b < MORE {
        return Some(Varint {
            value: b,
            next: at + 1,
        });
    }
    varint_of_any_size(m, at)
}

// The varint at a place, byte by byte.
#[inline(always)]
pub fn varint_of_any_size(m: &[u8], at: usize) -> Option<Varint>
    requires { at ≤ length m.now }
    ensures { result ≡ varint_at m.now at }
{
    let mut value: u64 = 0;
    for size in 0..MOST_BEFORE {
        if m.len() <= at + size {
            return None;
        }
        let b = u64::from(m[at + size]);
        if b < MORE {
            return Some(Varint {
                value: value + (b << (BITS * size)),
                next: at + size + 1,
            });
        }
        value += (b - MORE) << (BITS * size);
    }
    last_byte(m, at, value)
}

// The tenth byte after nine with their number: it has one bit.
fn last_byte(m: &[u8], at: usize, value: u64) -> Option<Varint>
    requires { Partway m.now at value 9 }
    ensures { result ≡ varint_at m.now at }
{
    if m.len() <= at + MOST_BEFORE {
        return None;
    }
    let b = u64::from(m[at + MOST_BEFORE]);
    if 1 < b {
        return None;
    }
    Some(Varint {
        value: value + (b << (BITS * MOST_BEFORE)),
        next: at + MOST_BEFORE + 1,
    })
}
