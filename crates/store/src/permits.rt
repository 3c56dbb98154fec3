// Permits in excess form: the numbers of rules/specs/Permits.antt. A word of permits is the permits and 2^62, so that a
// balance below 0 has a word.

// No permits (zero-permits).
pub const ZERO_PERMITS: u64 = 4_611_686_018_427_387_904;

// The least permits of a consumer, -255 (least-permits).
pub const LEAST_PERMITS: u64 = 4_611_686_018_427_387_649;

// The most permits of a consumer, 2^40 (most-permits).
pub const MOST_PERMITS: u64 = 4_611_687_117_939_015_680;

// The least permits of a dispatcher, -2^60 (least-total).
pub const LEAST_TOTAL: u64 = 3_458_764_513_820_540_928;

// The most permits of a dispatcher, 2^60 (most-total).
pub const MOST_TOTAL: u64 = 5_764_607_523_034_234_880;
