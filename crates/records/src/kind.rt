// Word 0 of a section: the kinds, in the order of `StoredAsmSection`. The four sizes follow each of the two unsized deltas.
// Kept: numbers, since word 0 lies in the caller's memory, as C has it; read back, a section is an enum, `AsmSection`.
pub const MARK: u32 = 0;

pub const OPS: u32 = 1;

pub const DATA: u32 = 2;

pub const DIRECT: u32 = 3;

pub const PUSHED_DELTA: u32 = 4;

// The last pushed delta: of size 4.
pub const LAST_PUSHED_DELTA: u32 = 8;

pub const RAW_DELTA: u32 = 9;

// The last kind: a raw delta of size 4.
pub const LAST: u32 = 13;
