// Document 01, module 2: the building calls. Each takes the store's counts by value and is lent the byte slice and the slice of words.
// It answers the new counts, or a refusal with nothing changed. Refusals are tested in the order 1, 2, 3, 6, 4, 5, and byte by byte of a
// run of op bytes. The work is done by number (`building`); here numbers become counts and refusals.
// Kept: eleven functions that differ in the call that they make, with counts and slices apart: docs/CLAIMS.md names each contract.
#![tactic(auto)]

ghost use Rattle.std.specs.Prelude.{◌≡◌};
ghost use Rattle.records.specs.Store.{store_of, words_per_section};
ghost use Rattle.calls.specs.Calls.{push_mark, push_op_byte, push_swap, push_dup, push_exchange, push_data, push_reference, push_reply, push_after};
ghost use Rattle.calls.specs.Calls.{push_minimal_u256, push_minimal_u64, push_minimal_u32, push_op_bytes, call_reply, call_after};
ghost use Rattle.store.specs.Built.{built_reply, built_of};

use numbers::{NUMBER, SECTION, counts_in, state_of};
use records::Assembler;
use units::{AsmReference, MarkId, Refusal};

// Adds a mark. Refusals: 3 large mark, 6 damaged, 5 sections full.
pub fn push_mark(
    store: Assembler,
    bytes: &[u8],
    words: &mut [u32],
    mark: MarkId,
) -> Result<Assembler, Refusal>
    ensures reply { built_reply result ≡ push_reply words_per_section (push_mark mark.0)
        (store_of store bytes.now words.old) }
    ensures words { words.new ≡ (push_after words_per_section (push_mark mark.0)
        (store_of store bytes.now words.old)).words }
{
    built_of(building::push_mark(state_of(store), bytes, words, mark.0))
}

// Adds a reference. Refusals: 3 large mark, 6 damaged, 5 sections full.
pub fn push_reference(
    store: Assembler,
    bytes: &[u8],
    words: &mut [u32],
    r: AsmReference,
) -> Result<Assembler, Refusal>
    ensures reply { built_reply result ≡ push_reply words_per_section (push_reference r)
        (store_of store bytes.now words.old) }
    ensures words { words.new ≡ (push_after words_per_section (push_reference r)
        (store_of store bytes.now words.old)).words }
{
    built_of(building::push_reference(state_of(store), bytes, words, r))
}

// Adds an op byte. Refusals: 6 damaged, 4 bytes full, 5 sections full.
pub fn push_op_byte(
    store: Assembler,
    bytes: &mut [u8],
    words: &mut [u32],
    byte: u8,
) -> Result<Assembler, Refusal>
    ensures reply { built_reply result ≡ push_reply words_per_section (push_op_byte byte)
        (store_of store bytes.old words.old) }
    ensures bytes { bytes.new ≡ (push_after words_per_section (push_op_byte byte)
        (store_of store bytes.old words.old)).bytes }
    ensures words { words.new ≡ (push_after words_per_section (push_op_byte byte)
        (store_of store bytes.old words.old)).words }
{
    built_of(building::push_op_byte(state_of(store), bytes, words, byte))
}

// Adds a run of op bytes, all or nothing: as `push_op_byte` of each in turn, and the first refusal is the run's. Refusals: 6 damaged;
// 4 bytes full, no room for one byte; 5 sections full; 4 bytes full, no room for all. An empty run is accepted with the counts as they
// are, on any store.
pub fn push_op_bytes(
    store: Assembler,
    bytes: &mut [u8],
    words: &mut [u32],
    run: &[u8],
) -> Result<Assembler, Refusal>
    ensures reply { built_reply result ≡ call_reply words_per_section (push_op_bytes run.now)
        (store_of store bytes.old words.old) }
    ensures bytes { bytes.new ≡ (call_after words_per_section (push_op_bytes run.now)
        (store_of store bytes.old words.old)).bytes }
    ensures words { words.new ≡ (call_after words_per_section (push_op_bytes run.now)
        (store_of store bytes.old words.old)).words }
{
    // Not by number: counts of 2^24 sections and more would be read as a refusal.
    if run.len() == 0 {
        return Ok(store);
    }
    built_of(building::push_op_bytes(state_of(store), bytes, words, run))
}

// Adds SWAP1 to SWAP16. Refusals: 1 bad depth (0 or above 16), 6 damaged, 4 bytes full, 5 sections full.
pub fn push_swap(
    store: Assembler,
    bytes: &mut [u8],
    words: &mut [u32],
    depth: u8,
) -> Result<Assembler, Refusal>
    ensures reply { built_reply result ≡ push_reply words_per_section (push_swap depth)
        (store_of store bytes.old words.old) }
    ensures bytes { bytes.new ≡ (push_after words_per_section (push_swap depth)
        (store_of store bytes.old words.old)).bytes }
    ensures words { words.new ≡ (push_after words_per_section (push_swap depth)
        (store_of store bytes.old words.old)).words }
{
    built_of(building::push_swap(state_of(store), bytes, words, depth))
}

// Adds DUP1 to DUP16, for depth 0 to 15. Refusals: 1 bad depth (above 15), 6 damaged, 4 bytes full, 5 sections full.
pub fn push_dup(
    store: Assembler,
    bytes: &mut [u8],
    words: &mut [u32],
    depth: u8,
) -> Result<Assembler, Refusal>
    ensures reply { built_reply result ≡ push_reply words_per_section (push_dup depth)
        (store_of store bytes.old words.old) }
    ensures bytes { bytes.new ≡ (push_after words_per_section (push_dup depth)
        (store_of store bytes.old words.old)).bytes }
    ensures words { words.new ≡ (push_after words_per_section (push_dup depth)
        (store_of store bytes.old words.old)).words }
{
    built_of(building::push_dup(state_of(store), bytes, words, depth))
}

// Exchanges the items at depths n and m: one SWAP of the other where one is 0, else SWAP n, m, n.
// Refusals: 1 bad depth (equal, or either above 16), 6 damaged, 4 bytes full, 5 sections full.
pub fn push_exchange(
    store: Assembler,
    bytes: &mut [u8],
    words: &mut [u32],
    n: u8,
    m: u8,
) -> Result<Assembler, Refusal>
    ensures reply { built_reply result ≡ push_reply words_per_section (push_exchange n m)
        (store_of store bytes.old words.old) }
    ensures bytes { bytes.new ≡ (push_after words_per_section (push_exchange n m)
        (store_of store bytes.old words.old)).bytes }
    ensures words { words.new ≡ (push_after words_per_section (push_exchange n m)
        (store_of store bytes.old words.old)).words }
{
    built_of(building::push_exchange(state_of(store), bytes, words, n, m))
}

// Pushes a word of 32 bytes, highest first. Refusals: 2 bad word (not 32 bytes), 6 damaged, 4 bytes full, 5 sections full.
pub fn push_minimal_u256(
    store: Assembler,
    bytes: &mut [u8],
    words: &mut [u32],
    word: &[u8],
) -> Result<Assembler, Refusal>
    ensures reply { built_reply result ≡ push_reply words_per_section (push_minimal_u256 word.now)
        (store_of store bytes.old words.old) }
    ensures bytes { bytes.new ≡ (push_after words_per_section (push_minimal_u256 word.now)
        (store_of store bytes.old words.old)).bytes }
    ensures words { words.new ≡ (push_after words_per_section (push_minimal_u256 word.now)
        (store_of store bytes.old words.old)).words }
{
    built_of(building::push_minimal_u256(state_of(store), bytes, words, word))
}

// Pushes a number. Refusals: 6 damaged, 4 bytes full, 5 sections full.
pub fn push_minimal_u64(
    store: Assembler,
    bytes: &mut [u8],
    words: &mut [u32],
    value: u64,
) -> Result<Assembler, Refusal>
    ensures reply { built_reply result ≡ push_reply words_per_section (push_minimal_u64 value)
        (store_of store bytes.old words.old) }
    ensures bytes { bytes.new ≡ (push_after words_per_section (push_minimal_u64 value)
        (store_of store bytes.old words.old)).bytes }
    ensures words { words.new ≡ (push_after words_per_section (push_minimal_u64 value)
        (store_of store bytes.old words.old)).words }
{
    built_of(building::push_minimal_u64(state_of(store), bytes, words, value))
}

// Pushes a number. Refusals: 6 damaged, 4 bytes full, 5 sections full.
pub fn push_minimal_u32(
    store: Assembler,
    bytes: &mut [u8],
    words: &mut [u32],
    value: u32,
) -> Result<Assembler, Refusal>
    ensures reply { built_reply result ≡ push_reply words_per_section (push_minimal_u32 value)
        (store_of store bytes.old words.old) }
    ensures bytes { bytes.new ≡ (push_after words_per_section (push_minimal_u32 value)
        (store_of store bytes.old words.old)).bytes }
    ensures words { words.new ≡ (push_after words_per_section (push_minimal_u32 value)
        (store_of store bytes.old words.old)).words }
{
    built_of(building::push_minimal_u32(state_of(store), bytes, words, value))
}

// Adds data; empty data adds an empty Data section unless the last section is Data.
// Refusals: 6 damaged, 4 bytes full, 5 sections full.
pub fn push_data(
    store: Assembler,
    bytes: &mut [u8],
    words: &mut [u32],
    data: &[u8],
) -> Result<Assembler, Refusal>
    ensures reply { built_reply result ≡ push_reply words_per_section (push_data «data».now)
        (store_of store bytes.old words.old) }
    ensures bytes { bytes.new ≡ (push_after words_per_section (push_data «data».now)
        (store_of store bytes.old words.old)).bytes }
    ensures words { words.new ≡ (push_after words_per_section (push_data «data».now)
        (store_of store bytes.old words.old)).words }
{
    built_of(building::push_data(state_of(store), bytes, words, data))
}

// What the number of a building call stands for.
// Kept: no `From`, since neither type is this crate's.
fn built_of(answer: u64) -> Result<Assembler, Refusal>
    ensures { built_reply result ≡ built_of answer }
{
    match answer / NUMBER {
        0 => Ok(counts_in(answer)),
        1 => Err(Refusal::BadDepth),
        2 => Err(Refusal::BadWord),
        3 => Err(Refusal::LargeMark),
        4 => Err(Refusal::BytesFull),
        5 => Err(Refusal::SectionsFull),
        _ => Err(Refusal::Damaged {
            section: (answer % SECTION) as u32,
        }),
    }
}
