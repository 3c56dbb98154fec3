// Where things stand in a store: the numbers of layout/specs/Offsets.antt and docs/STORE.md, each named once. Those
// ending in `_AT` are from the store's first word, those in `_IN` from the first word of the record that holds them,
// `_WORDS` is how many words a record has. A number that depends on E has a second constant, `_E`, for each entry.
ghost use Rattle.std.specs.Prelude.{◌≡◌, ◌≤◌};
ghost use Rattle.layout.specs.Offsets.{consumer_at, topic_at, dispatcher_at};

// ---- the header

// What word 0 of every store of this layout is (layout-tag).
pub const LAYOUT_TAG: u64 = 0x5a51_4453_5031_0002;

// E, the entries per topic.
pub const ENTRIES_AT: usize = 1;

// The leak switch.
pub const LEAK_AT: usize = 2;

// The no-op switch.
pub const NOOP_AT: usize = 3;

// The words reserved in the header.
pub const HEADER_RESERVED_AT: usize = 4;

// The words of the header.
pub const HEADER_WORDS: usize = 16;

// ---- the tables

// The number of consumers (consumer-count-at).
pub const CONSUMER_COUNT_AT: usize = 16;

// Consumer 0 (consumer-at).
pub const CONSUMERS_AT: usize = 17;

// The words of a consumer.
pub const CONSUMER_WORDS: usize = 72;

// The number of topics (topic-count-at).
pub const TOPIC_COUNT_AT: usize = 2321;

// Topic 0 (topic-at).
pub const TOPICS_AT: usize = 2322;

// The words of a topic: these, and `TOPIC_WORDS_E` for each entry.
pub const TOPIC_WORDS: usize = 4;

pub const TOPIC_WORDS_E: usize = 4;

// The number of dispatchers (dispatcher-count-at): here, and `DISPATCHERS_AT_E` more for each entry.
pub const DISPATCHER_COUNT_AT: usize = 2354;

// Dispatcher 0 (dispatcher-at), likewise.
pub const DISPATCHERS_AT: usize = 2355;

pub const DISPATCHERS_AT_E: usize = 32;

// The words of a dispatcher: these, and `DISPATCHER_WORDS_E` for each entry.
pub const DISPATCHER_WORDS: usize = 176;

pub const DISPATCHER_WORDS_E: usize = 9;

// The words reserved at the end (reserved-at): from here, and `RESERVED_AT_E` more for each entry.
pub const RESERVED_AT: usize = 3763;

pub const RESERVED_AT_E: usize = 104;

// The words that a store needs: these, and `NEEDED_WORDS_E` for each entry.
pub const NEEDED_WORDS: usize = 4096;

pub const NEEDED_WORDS_E: usize = 128;

// ---- in a consumer, after its id

// Its topic.
pub const CONSUMER_TOPIC_IN: usize = 1;

// Its subscription.
pub const CONSUMER_SUBSCRIPTION_IN: usize = 2;

// Its kind: 0 plain, 1 shared.
pub const KIND_IN: usize = 3;

// Its permits.
pub const PERMITS_IN: usize = 4;

// Its cursor.
pub const CONSUMER_CURSOR_IN: usize = 5;

// The number of its nacked positions (nacked-in).
pub const NACKED_IN: usize = 6;

// The nacked positions.
pub const NACKED_LIST_IN: usize = 7;

// The reserved word.
pub const CONSUMER_RESERVED_IN: usize = 71;

// ---- in a topic, after its number

// The reserved words.
pub const TOPIC_RESERVED_IN: usize = 1;

// The number of its messages (messages-in).
pub const MESSAGES_IN: usize = 3;

// Message 0 (message-in).
pub const MESSAGE_IN: usize = 4;

// The words of a message: ledger, entry, handle, batch size.
pub const MESSAGE_WORDS: usize = 4;

// The entry of an id, after its ledger.
pub const ENTRY_IN: usize = 1;

// The handle of a message.
pub const HANDLE_IN: usize = 2;

// The batch size of a message.
pub const BATCH_IN: usize = 3;

// That of message 0, from the first word of its topic.
pub const FIRST_BATCH_IN: usize = MESSAGE_IN + BATCH_IN;

// ---- in a dispatcher, after its topic

// Its subscription.
pub const SUBSCRIPTION_IN: usize = 1;

// Its next slot.
pub const NEXT_IN: usize = 2;

// Its cursor.
pub const CURSOR_IN: usize = 3;

// Its mark-delete.
pub const MARK_DELETE_IN: usize = 4;

// Its total of permits.
pub const TOTAL_IN: usize = 5;

// The reserved words.
pub const DISPATCHER_RESERVED_IN: usize = 6;

// The number of its ring ids (ring-in).
pub const RING_IN: usize = 11;

// The ring ids.
pub const RING_IDS_IN: usize = 12;

// The number of complete ids outside the ledger (outside-in).
pub const OUTSIDE_IN: usize = 44;

// Those ids (outside-id-in).
pub const OUTSIDE_IDS_IN: usize = 45;

// The words of an id: ledger, entry.
pub const ID_WORDS: usize = 2;

// The number of queued positions (queue-in).
pub const QUEUE_IN: usize = 173;

// The queued positions.
pub const QUEUED_IN: usize = 174;

// The number of entries in flight (flight-in): here, and one more for each entry.
pub const FLIGHT_IN: usize = 174;

// Entry 0 in flight (held-in), likewise.
pub const HELD_IN: usize = 175;

// The words of an entry in flight: holder, position.
pub const HELD_WORDS: usize = 2;

// The position of an entry in flight, after its holder.
pub const POSITION_IN: usize = 1;

// The number of marks (marks-in): here, and `MARKS_IN_E` more for each entry.
pub const MARKS_IN: usize = 175;

// Mark 0 (mark-in), likewise.
pub const MARK_IN: usize = 176;

// The redelivery count of mark 0, likewise.
pub const REDELIVERY_COUNTS_IN: usize = MARK_IN + REDELIVERY_COUNT_IN;

pub const MARKS_IN_E: usize = 3;

// The words of a mark: complete, redelivery count, four of unacknowledged bits.
pub const MARK_WORDS: usize = 6;

// The redelivery count of a mark.
pub const REDELIVERY_COUNT_IN: usize = 1;

// The bits of a mark: four words.
pub const BITS_IN: usize = 2;

pub const BITS_1_IN: usize = 3;

pub const BITS_2_IN: usize = 4;

pub const BITS_3_IN: usize = 5;

// The first word of consumer `i`.
pub fn consumer_at(i: usize) -> usize
    requires { i ≤ 32 }
    ensures { result ≡ consumer_at i }
{
    CONSUMERS_AT + i * CONSUMER_WORDS
}

// The first word of topic `t`.
pub fn topic_at(e: usize, t: usize) -> usize
    requires { (e ≤ 4096) × (t ≤ 8) }
    ensures { result ≡ topic_at e t }
{
    TOPICS_AT + t * (TOPIC_WORDS + TOPIC_WORDS_E * e)
}

// The first word of dispatcher `d`.
pub fn dispatcher_at(e: usize, d: usize) -> usize
    requires { (e ≤ 4096) × (d ≤ 8) }
    ensures { result ≡ dispatcher_at e d }
{
    DISPATCHERS_AT + DISPATCHERS_AT_E * e + d * (DISPATCHER_WORDS + DISPATCHER_WORDS_E * e)
}
