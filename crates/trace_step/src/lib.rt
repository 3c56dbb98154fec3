// The player's step: what stands at the front of the bytes held is found whole, cut off or wrong; a whole record is read as a
// call, the call is made on the store, and its lines are written into a lent buffer. The store spells a state before and after,
// so it is never checked.
#![tactic(auto)]

ghost use Rattle.std.specs.Prelude.{◌≡◌, true, ◌*◌, ◌≤◌, length};
ghost use Rattle.words.specs.Act.{lay};
ghost use Rattle.layout.specs.Layout.{decode, spells};
ghost use Rattle.trace.specs.Format.{record_reach, record_in};
ghost use Rattle.trace.specs.Format.Reach.{ends};
ghost use Rattle.trace.specs.Played.{ROOM, record_call};
ghost use Rattle.trace.specs.Steps.{reach, end_text};
ghost use Rattle.trace_call.specs.Made.{words_told, made, answer_of, answered, words_made, list_made};
ghost use Rattle.trace_lines.specs.Told.{lines_bytes};
ghost use Rattle.trace_step.specs.Stepped.{player_after, step_answer, Within, step_call, WroteBad, Stepped, HeaderStepped};

use record::RECORD_WORDS;
use refusal::{Answer, word_of};
use trace_call::make_call;
use trace_lines::{write_bad, write_outcome};
use trace_read::{MOST_WORDS, Reach, header_reach, kind_of, read_words, record_reach};

// What a step did: nothing, since what is held is cut off; it wrote a bad line of so many bytes, and is the last; or it took
// so many bytes of what is held and wrote so many. Bad is no error: its line is printed, and the three are what a player does.
#[derive(Clone, Copy)]
pub enum Did {
    Waits,
    Bad(usize),
    Went(usize, usize),
}

// Writes the bad line of a record, or of the header as number 0.
fn bad(out: &mut [u8], number: u64) -> Did
    requires { lines_bytes ≤ length out.old }
    ensures { WroteBad number out.old result out.new }
{
    Did::Bad(write_bad(out, number))
}

// The words of a push's list, which holds 32 records.
const LIST_WORDS: usize = 32 * RECORD_WORDS;

// Makes the call of a record, if it is one.
fn make_record(store: &mut [u64], bytes: &[u8], list: &mut [u64]) -> Option<Answer>
    requires { (spells store.old ≡ true) × (record_reach bytes.now ≡ ends (length bytes.now)) × (length list.old ≡ ROOM * 13) }
    ensures answer { words_told result ≡ made store.old (record_call (record_in bytes.now)) }
    ensures number { answer_of (words_told result) ≡ answered store.old (record_call (record_in bytes.now)) }
    ensures words { store.new ≡ words_made store.old (record_call (record_in bytes.now)) }
    ensures records { list.new ≡ list_made store.old list.old (record_call (record_in bytes.now)) }
{
    // A record has at most 1,217 words, and there is no heap.
    let mut words = [0u64; MOST_WORDS];
    let n = read_words(bytes, &mut words);
    let kind = kind_of(bytes);
    make_call(store, kind, &words[..n], list)
}

// Plays the record that takes the first bytes of what is held.
fn play_record(store: &mut [u64], number: u64, held: &[u8], size: usize, out: &mut [u8]) -> Did
    requires { (spells store.old ≡ true) × (1 ≤ number) × (record_reach held.now ≡ ends size) × (lines_bytes ≤ length out.old) }
    ensures { Stepped store.old number held.now out.old result store.new out.new }
{
    let kind = kind_of(&held[..size]);
    let mut list = [0u64; LIST_WORDS];
    let made = make_record(store, &held[..size], &mut list);
    match made {
        Some(answer) => {
            let written = write_outcome(out, number, kind, word_of(answer), &list);
            Did::Went(size, written)
        }
        None => bad(out, number),
    }
}

// A step of a player that stands at a record.
fn step_record(store: &mut [u64], number: u64, held: &[u8], out: &mut [u8]) -> Did
    requires { (spells store.old ≡ true) × (1 ≤ number) × (lines_bytes ≤ length out.old) }
    ensures { Stepped store.old number held.now out.old result store.new out.new }
{
    let reach = record_reach(held);
    match reach {
        Reach::Ends(size) => play_record(store, number, held, size, out),
        Reach::CutOff => Did::Waits,
        Reach::Wrong => bad(out, number),
    }
}

// A step of a player that stands at the header, which takes no store.
fn step_header(held: &[u8], out: &mut [u8]) -> Did
    requires { lines_bytes ≤ length out.old }
    ensures { HeaderStepped held.now out.old result out.new }
{
    let reach = header_reach(held);
    match reach {
        Reach::Ends(size) => Did::Went(size, 0),
        Reach::CutOff => Did::Waits,
        Reach::Wrong => bad(out, 0),
    }
}

// A step: `number` is that of the record at the front of what is held. The header is number 0, as its bad line prints it. The
// player lends what is left of its buffer, of no fixed length.
pub fn step(store: &mut [u64], number: u64, held: &[u8], out: &mut [u8]) -> Did
    requires { (spells store.old ≡ true) × (lines_bytes ≤ length out.old) }
    ensures answer { result ≡ step_answer (reach number held.now) (player_after store.old number held.now) }
    ensures text { out.new ≡ (lay (player_after store.old number held.now).printed).run 0 out.old }
    ensures words { store.new ≡ words_made store.old
        (step_call number held.now (reach number held.now)) }
    ensures state { decode store.new ≡ (player_after store.old number held.now).state }
    ensures spelt { spells store.new ≡ true }
    ensures within { Within (length held.now) result }
{
    if number == 0 {
        return step_header(held, out);
    }
    step_record(store, number, held, out)
}

// The end of the input: without a header it is bad, and so is a record that is begun. Answers how many bytes it wrote.
pub fn finish(number: u64, held: &[u8], out: &mut [u8]) -> usize
    requires { lines_bytes ≤ length out.old }
    ensures answer { result ≡ length (end_text number held.now) }
    ensures text { out.new ≡ (lay (end_text number held.now)).run 0 out.old }
    ensures within { result ≤ lines_bytes }
{
    if number == 0 {
        return write_bad(out, 0);
    }
    if held.len() == 0 {
        return 0;
    }
    write_bad(out, number)
}
