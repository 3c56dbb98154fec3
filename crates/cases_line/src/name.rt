// What a line of the script asks for. A name is read as the number that its last eight letters spell in base 256.
ghost use Rattle.std.specs.Prelude.{◌≡◌, eqb};
ghost use Rattle.cases_line.specs.Names.{name_of, PLAIN as plain, START as start};

use trace_kind::Command;

// The store opened, a call, a row of calls, the balance check.
#[derive(Clone, Copy, Debug, PartialEq, Eq)]
pub enum Name {
    Open,
    Call(Command),
    Row,
    Balance,
}

// open
const OPEN: u64 = 0x6f70656e;

// append
const APPEND: u64 = 0x617070656e64;

// subscribe
const SUBSCRIBE: u64 = 0x7562736372696265;

// flow
const FLOW: u64 = 0x666c6f77;

// ack
const ACK: u64 = 0x61636b;

// seek
const SEEK: u64 = 0x7365656b;

// redeliver
const REDELIVER: u64 = 0x6564656c69766572;

// close
const CLOSE: u64 = 0x636c6f7365;

// push
const PUSH: u64 = 0x70757368;

// balance
const BALANCE: u64 = 0x62616c616e6365;

// row
const ROW: u64 = 0x726f77;

// plain
const PLAIN: u64 = 0x706c61696e;

// start
const START: u64 = 0x7374617274;

// The name that a word of a line is, if it is one.
pub fn name_of(word: u64) -> Option<Name>
    ensures { result ≡ name_of word }
{
    match word {
        OPEN => Some(Name::Open),
        APPEND => Some(Name::Call(Command::Append)),
        SUBSCRIBE => Some(Name::Call(Command::Subscribe)),
        FLOW => Some(Name::Call(Command::Flow)),
        ACK => Some(Name::Call(Command::Ack)),
        SEEK => Some(Name::Call(Command::Seek)),
        REDELIVER => Some(Name::Call(Command::Redeliver)),
        CLOSE => Some(Name::Call(Command::Close)),
        PUSH => Some(Name::Call(Command::Push)),
        BALANCE => Some(Name::Balance),
        ROW => Some(Name::Row),
        _ => None,
    }
}

// Whether a subscribe's kind is plain.
pub fn is_plain(word: u64) -> bool
    ensures { result ≡ eqb word plain }
{
    word == PLAIN
}

// Whether a seek's target is the start.
pub fn is_start(word: u64) -> bool
    ensures { result ≡ eqb word start }
{
    word == START
}
