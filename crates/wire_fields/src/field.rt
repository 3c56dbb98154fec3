// The field whose tag stands at a place of a message. Its content is looked at as far as its wire type says, and not inside.
// Places are in the whole message, since a name is told by its place in the input. What most fields need is inlined, so that a
// walk makes no call for a field.
ghost use Rattle.std.specs.Prelude.{◌≡◌, ◌+◌, ◌≤◌, length};
ghost use Rattle.wire.specs.Fields.{field, field_of, varint_field, delimited_field, fixed_field};
ghost use Rattle.wire_fields.specs.Found.{answered, as_field, part_field};

use super::format::UINT32_END;
use super::varint::varint_at;

// A field as `wire/specs/Fields` has it, number by number: its number and wire type, the number of a varint, and the places where
// its content begins and where the next field does.
#[derive(Clone, Copy)]
pub struct Field {
    pub number: u64,
    pub wire: u64,
    pub value: u64,
    pub start: usize,
    pub next: usize,
}

// Wire types. A wire type stays a number: a field is asked for by its tag, number × 8 + wire type.
pub const VARINT: u64 = 0;

const FIXED_64: u64 = 1;

pub const DELIMITED: u64 = 2;

const FIXED_32: u64 = 5;

// A tag is number × 8 + wire type, the number from 1 to 2^29 - 1.
pub const WIRE_TYPES: u64 = 8;

// A varint field whose number stands at a place.
#[inline(always)]
fn varint_field(m: &[u8], number: u64, at: usize) -> Option<Field>
    requires { at ≤ length m.now }
    ensures { result ≡ answered as_field (varint_field m.now number at) }
{
    let v = varint_at(m, at)?;
    Some(Field {
        number,
        wire: VARINT,
        value: v.value,
        start: at,
        next: v.next,
    })
}

// A part of some bytes from a place on, if the message has them.
#[inline(always)]
#[tactic(auto, unfolding(crate::specs::Found::part_field))]
fn part_field(m: &[u8], number: u64, start: usize, size: u64) -> Option<Field>
    requires { start ≤ length m.now }
    ensures { result ≡ part_field m.now number start size }
{
    if ((m.len() - start) as u64) < size {
        return None;
    }
    Some(Field {
        number,
        wire: DELIMITED,
        value: 0,
        start,
        next: start + size as usize,
    })
}

// A length-delimited field whose length stands at a place.
#[inline(always)]
fn delimited_field(m: &[u8], number: u64, at: usize) -> Option<Field>
    requires { at ≤ length m.now }
    ensures { result ≡ answered as_field (delimited_field m.now number at) }
{
    let size = varint_at(m, at)?;
    part_field(m, number, size.next, size.value)
}

// A field of a fixed width.
fn fixed_field(m: &[u8], number: u64, wire: u64, width: usize, at: usize) -> Option<Field>
    requires { at ≤ length m.now }
    ensures { result ≡ answered as_field (fixed_field m.now number wire width at) }
{
    if m.len() - at < width {
        return None;
    }
    Some(Field {
        number,
        wire,
        value: 0,
        start: at,
        next: at + width,
    })
}

// What a wire type says, from a place on; groups and unknown types are no field.
#[inline(always)]
#[tactic(auto, unfolding(wire::specs::Fields::field_of, crate::specs::Found::answered))]
fn content_at(m: &[u8], number: u64, wire: u64, at: usize) -> Option<Field>
    requires { at ≤ length m.now }
    ensures { result ≡ answered as_field (field_of m.now number wire at) }
{
    match wire {
        VARINT => varint_field(m, number, at),
        FIXED_64 => fixed_field(m, number, FIXED_64, 8, at),
        DELIMITED => delimited_field(m, number, at),
        FIXED_32 => fixed_field(m, number, FIXED_32, 4, at),
        _ => None,
    }
}

// The field whose tag stands at a place.
#[inline(always)]
pub fn field_at(m: &[u8], at: usize) -> Option<Field>
    requires { at ≤ length m.now }
    ensures { result ≡ answered as_field (field m.now at) }
{
    let tag = varint_at(m, at)?;
    if tag.value < WIRE_TYPES {
        return None;
    }
    if UINT32_END <= tag.value {
        return None;
    }
    content_at(m, tag.value / WIRE_TYPES, tag.value % WIRE_TYPES, tag.next)
}
