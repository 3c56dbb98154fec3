// How many of each a store can hold, and the greatest of each number: the limits of document 01, each named once.

// The most entries per topic: E is 1 to this.
pub const MOST_ENTRIES: u64 = 4096;

// Topics.
pub const MOST_TOPICS: usize = 8;

// Live consumers.
pub const MOST_CONSUMERS: usize = 32;

// Dispatchers.
pub const MOST_DISPATCHERS: usize = 8;

// Ids of a ring.
pub const MOST_RING_IDS: usize = 32;

// Nacked positions of a consumer.
pub const MOST_NACKED: usize = 64;

// Complete ids of a dispatcher outside the ledger.
pub const MOST_OUTSIDE: usize = 64;

// The greatest topic or subscription number.
pub const MOST_NUMBER: u64 = 255;

// The greatest batch size.
pub const MOST_BATCH: u64 = 256;

// The redelivery count at which it stops, 2^32 - 1.
pub const MOST_REDELIVERIES: u64 = 0xffff_ffff;
