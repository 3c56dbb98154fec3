// The trace player: reads a trace on standard input and prints its lines on standard output. It plays what is whole of the
// bytes that it holds, prints what that gave, and reads again; it holds no more than a record and a block of 65,536 bytes. The
// steps are those of `trace_step`, on a store of E = 32 with both switches off; what is read and written is tested and not
// proved. A read that fails counts as the end of the input; where a write fails, the player stops.
#![tactic(auto)]

mod input;
mod place;

ghost use Rattle.std.specs.Prelude.{◌≡◌, true, ◌+◌, ◌≤◌, ◌<◌, ◌^◌, length};
ghost use Rattle.layout.specs.Layout.{spells};
ghost use Rattle.player.specs.Places.{held_bytes, out_bytes, Placed, WentOn, GoesOn};

use crate::input::{make_room, read_more};
use crate::place::Place;
use std::io::Read;
use store::offsets::{NEEDED_WORDS, NEEDED_WORDS_E};
use store::open::open;
use trace_lines::LINES_BYTES;
use trace_read::MOST_BYTES;
use trace_step::{Did, finish, step};

// E of the store, and the words that it needs.
const ENTRIES: usize = 32;

const STORE_WORDS: usize = NEEDED_WORDS + ENTRIES * NEEDED_WORDS_E;

// The bytes of input that are held at most, a record and a block; and those of lines that are kept until they are printed.
const BLOCK_BYTES: usize = 65_536;

const HELD_BYTES: usize = MOST_BYTES + BLOCK_BYTES;

const OUT_BYTES: usize = 65_536;

// Opens the store and plays.
fn main(rt: HostRuntime) {
    let mut store = [0u64; STORE_WORDS];
    let _ = open(&mut store, ENTRIES as u64, 0, 0);
    play(&rt, &mut store);
}

// Plays the input to its end. The turns are more than any input takes, since a proved loop has to end.
fn play(rt: &(impl Input + Print), store: &mut [u64])
    requires { spells store.old ≡ true }
{
    let mut input = rt.reader();
    let mut held = [0u8; HELD_BYTES];
    let mut out = [0u8; OUT_BYTES];
    let mut place = Place {
        from: 0,
        to: 0,
        number: 0,
        filled: 0,
    };
    for turns in 0..u64::MAX {
        let Some(next) = turn(rt, &mut input, store, &mut held, &mut out, place) else {
            return;
        };
        place = next;
    }
}

// One step, or the next block where what is held is cut off; none once the player is done.
fn turn(
    rt: &impl Print,
    input: &mut impl Read,
    store: &mut [u64],
    held: &mut [u8; HELD_BYTES],
    out: &mut [u8; OUT_BYTES],
    place: Place,
) -> Option<Place>
    requires { (spells store.old ≡ true) × Placed place × (place.number + 1 < 2 ^ 64) }
    ensures { (spells store.new ≡ true) × GoesOn place.number result }
{
    let Place {
        from,
        to,
        number,
        filled,
    } = place;
    let did = step(store, number, &held[from..to], &mut out[filled..]);
    match did {
        Did::Went(size, written) => {
            let next = Place {
                from: from + size,
                to,
                number: number + 1,
                filled: filled + written,
            };
            went(rt, out, next)
        }
        Did::Waits => wait(rt, input, held, out, place),
        Did::Bad(written) => {
            let end = filled + written;
            let _ = rt.write_all(&out[..end]);
            None
        }
    }
}

// After a step: where the lines of another might not find room, all are printed.
fn went(rt: &impl Print, out: &[u8; OUT_BYTES], place: Place) -> Option<Place>
    requires { place.filled ≤ out_bytes }
    ensures { WentOn place result }
{
    if out.len() - place.filled < LINES_BYTES {
        rt.write_all(&out[..place.filled]).ok()?;
        return Some(Place { filled: 0, ..place });
    }
    Some(place)
}

// What is held is cut off: all lines are printed before more is read. At the end of the input the last line may be bad.
fn wait(
    rt: &impl Print,
    input: &mut impl Read,
    held: &mut [u8; HELD_BYTES],
    out: &mut [u8; OUT_BYTES],
    place: Place,
) -> Option<Place>
    requires { Placed place }
    ensures { GoesOn place.number result }
{
    rt.write_all(&out[..place.filled]).ok()?;
    let start = make_room(held, place.from, place.to);
    let end = start + (place.to - place.from);
    let got = read_more(input, held, end);
    if got == 0 {
        let written = finish(place.number, &held[start..end], out);
        let _ = rt.write_all(&out[..written]);
        return None;
    }
    Some(Place {
        from: start,
        to: end + got,
        number: place.number,
        filled: 0,
    })
}
