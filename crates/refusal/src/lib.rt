// Why a call is refused, and what a call answers as one word for C: a value modulo 2^56, times 256; or the number of the
// refusal, with a value before it where it tells one. The refusals have the names that include/broker.h gives their numbers.
#![tactic(auto)]

ghost use Rattle.std.specs.Prelude.{◌≡◌};
ghost use Rattle.refusal.specs.Words.{valued, refusal_word, word_of};

// A refusal. Those of a command as bytes are the readers' own.
#[derive(Clone, Copy, Debug, PartialEq, Eq)]
pub enum Refusal {
    // The words spell no state.
    NoState,
    // E is not 1 to 4,096.
    BadEntries,
    // The store is shorter than E needs.
    StoreShort,
    // No live consumer has this id.
    NotLive,
    // A new topic, and there are 8.
    TopicsFull,
    // The topic has E entries.
    EntriesFull,
    // The topic has an entry with this ledger and entry id.
    IdTaken,
    // The batch size is not 0 to 256.
    BadBatch,
    // Permits would leave their range.
    PermitsRange,
    // The list is not at most 64 whole groups of at most 16 words.
    BadList,
    // Complete ids outside the ledger, or nacked entries, would pass 64.
    IdsFull,
    // A new consumer, and 32 are live.
    ConsumersFull,
    // A new shared subscription, and there are 8.
    DispatchersFull,
    // The shared subscription's ring has 32 ids.
    RingFull,
    // More dispatches are due than the list holds: so many.
    ListShort(u64),
    // A record of a script is no call.
    NoCall,
    // A row has more calls than answers are lent: so many.
    AnswersShort(u64),
}

// An answer is a value and a number below this.
pub const NUMBERS: u64 = 256;

// A value is answered below this, 2^56.
const VALUES: u64 = 72_057_594_037_927_936;

// A value as it is answered.
fn valued(value: u64) -> u64
    ensures { result ≡ valued value }
{
    value % VALUES * NUMBERS
}

impl From<Refusal> for u64 {
    ghost from_gives = { λ refusal word. word ≡ refusal_word refusal };

    fn from(refusal: Refusal) -> u64 {
        match refusal {
            Refusal::NoState => 1,
            Refusal::BadEntries => 2,
            Refusal::StoreShort => 3,
            Refusal::NotLive => 4,
            Refusal::TopicsFull => 5,
            Refusal::EntriesFull => 6,
            Refusal::IdTaken => 7,
            Refusal::BadBatch => 8,
            Refusal::PermitsRange => 9,
            Refusal::BadList => 10,
            Refusal::IdsFull => 11,
            Refusal::ConsumersFull => 12,
            Refusal::DispatchersFull => 13,
            Refusal::RingFull => 14,
            Refusal::ListShort(due) => valued(due) + 15,
            Refusal::NoCall => 18,
            Refusal::AnswersShort(calls) => valued(calls) + 64,
        }
    }
}

// What a call comes to: its value, 0 where it has none, or why it is refused.
pub type Answer = Result<u64, Refusal>;

// An answer as one word.
pub fn word_of(answer: Answer) -> u64
    ensures { result ≡ word_of answer }
{
    match answer {
        Ok(value) => valued(value),
        Err(refusal) => u64::from(refusal),
    }
}
