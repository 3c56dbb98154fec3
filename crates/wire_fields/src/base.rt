// A BaseCommand: its type, and where the message of that type stands in it.
ghost use Rattle.std.specs.Prelude.{◌≡◌, ◌<◌, ◌^◌};
ghost use Rattle.wire.specs.Commands.{type_of};
ghost use Rattle.wire_fields.specs.Found.{answered};
ghost use Rattle.wire_fields.specs.Selected.{base_of, placed};

use super::field::{DELIMITED, VARINT, WIRE_TYPES};
use super::format::UINT32_END;
use super::pick::pick;
use super::select::{Place, Width};

// The tag of the type.
const TYPE: u64 = 1 * WIRE_TYPES + VARINT;

// The type, and where its message stands if it is there.
#[derive(Clone, Copy)]
pub struct Base {
    pub kind: u64,
    pub message: Option<Place>,
}

// The second byte, which in most commands is the type. Where there is no second byte any guess does: a guess that is not the
// type is looked for again.
fn likely_type(m: &[u8]) -> u64
    ensures { result < 2 ^ 32 }
{
    if m.len() < 2 {
        return 0;
    }
    u64::from(m[1])
}

// Where the message of a type stands in a BaseCommand.
fn message_part(m: &[u8], kind: u64) -> Option<Place>
    ensures { result ≡ placed m.now kind }
{
    if UINT32_END <= kind {
        return None;
    }
    let [x] = pick(m, [kind * WIRE_TYPES + DELIMITED])?;
    x.part()
}

// The type of a BaseCommand and where its message stands: in one walk where the type is as likely. The slice is lent anew as its
// whole part, since handed on as it came it is copied first, and what reads the copy has to wait for it.
pub fn read_base(m: &[u8]) -> Option<Base>
    ensures { result ≡ answered (base_of m.now) (type_of m.now) }
{
    let likely = likely_type(m);
    let n = m.len();
    let [x, y] = pick(&m[0..n], [TYPE, likely * WIRE_TYPES + DELIMITED])?;
    let kind = x.required(Width::Int32)?;
    if kind == likely {
        let message = y.part();
        return Some(Base { kind, message });
    }
    let message = message_part(m, kind);
    Some(Base { kind, message })
}
