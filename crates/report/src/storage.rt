// Memory for any script that can be read. Constants call no function, so they turn numbers by `as`.

// A script has at most so many bytes.
// Kept casts, here and at `MOST_BOARDS`.
pub const MOST_BYTES: u64 = script::model::MOST_BYTES as u64;

// The slots of seven boards, what they hear from one another, and the trees of two bad boards.
pub const MOST_BOARDS: usize = exchanges::fitting::MOST_BOARDS as usize;

pub const SLOTS: usize = 10 * MOST_BOARDS;

pub const HEARD: usize = MOST_BOARDS * MOST_BOARDS;

pub const PICKS: usize = 8 * HEARD;

pub const WORKSPACE: usize = 1_813;

// As many records and slips as so many bytes can hold.
pub const MOST_RECORDS: usize = 12_000;

pub const MOST_SLIPS: usize = 10_500;
