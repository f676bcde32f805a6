// The script: its limits and its parts. Every number is four bytes, highest first.
ghost use Rattle.std.specs.Prelude.{◌≤◌, IfSome};
ghost use Rattle.replay.specs.declared.script.TheConstants.{MAX_BYTES, MAX_WORDS, MAX_TABLE, MAX_RESULT, MAX_LISTING};

use crate::step::STEP_BYTES;

// The longest script, and the largest numbers that a header may have.
pub(crate) const MAX_SCRIPT: usize = 1048576;

pub(crate) const MAX_BYTES: usize = 131072;

pub(crate) const MAX_WORDS: usize = 65536;

pub(crate) const MAX_TABLE: usize = 16384;

pub(crate) const MAX_RESULT: usize = 262144;

pub(crate) const MAX_LISTING: usize = 1048576;

// Six numbers; after them the pool, and then the steps.
const HEADER_BYTES: usize = 24;

// The lengths of the five slices, each within its limit, the pool and the steps.
#[derive(Clone, Copy)]
pub(crate) struct Script<'a> {
    pub(crate) bytes: usize,
    pub(crate) words: usize,
    pub(crate) table: usize,
    pub(crate) result: usize,
    pub(crate) listing: usize,
    pub(crate) pool: &'a [u8],
    pub(crate) steps: &'a [[u8; STEP_BYTES]],
    ghost bytes_within: { bytes ≤ MAX_BYTES },
    ghost words_within: { words ≤ MAX_WORDS },
    ghost table_within: { table ≤ MAX_TABLE },
    ghost result_within: { result ≤ MAX_RESULT },
    ghost listing_within: { listing ≤ MAX_LISTING },
}

impl<'a> Script<'a> {
    // None: it is too long or short of its header or pool, passes a limit, or its steps are no multiple of nine bytes.
    pub(crate) fn read(script: &'a [u8]) -> Option<Self> {
        if script.len() > MAX_SCRIPT {
            return None;
        }
        let (header, rest) = script.split_at_checked(HEADER_BYTES)?;
        let (&[bytes, words, table, result, listing, pool], []) = header.as_chunks::<4>() else {
            return None;
        };
        let (pool, rest) = rest.split_at_checked(u32::from_be_bytes(pool) as usize)?;
        let (steps, []) = rest.as_chunks::<STEP_BYTES>() else {
            return None;
        };
        Some(Script {
            bytes: within(bytes, MAX_BYTES)?,
            words: within(words, MAX_WORDS)?,
            table: within(table, MAX_TABLE)?,
            result: within(result, MAX_RESULT)?,
            listing: within(listing, MAX_LISTING)?,
            pool,
            steps,
        })
    }
}

// A number that is at most `most`.
fn within(number: [u8; 4], most: usize) -> Option<usize>
    ensures { IfSome result (λ n. n ≤ most) }
{
    let n = u32::from_be_bytes(number) as usize;
    (n <= most).then_some(n)
}
