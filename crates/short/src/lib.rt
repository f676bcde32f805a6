// The short ways of the building calls: what most calls come to, found by a few tests and written at once, on the state's own number.
// Each answers the next state, or None with nothing changed where its test says no: then the caller has every case judged (`adding`).
// Nothing here goes by way of memory: every function is small enough to be inlined.
// Kept: the state is one number beside its slices, as C has it (building); the Option costs nothing, since every call is inlined.
// Kept: one op byte beside runs of them, and counts read from the state's number in place: an array of one byte lies in memory when it is lent.
#![tactic(auto)]

mod last;
mod test;
mod write;

ghost use Rattle.std.specs.Prelude.{◌≡◌, [], ◌∷◌, ◌<◌, length};
ghost use Rattle.records.specs.Record.{stored_section};
ghost use Rattle.records.specs.Sections.{ops};
ghost use Rattle.calls.specs.Calls.{minimal_push};
ghost use Rattle.numbers.specs.Numbers.{store_in};
ghost use Rattle.short.specs.Tried.{TriedSection, TriedWords, data_section, span_section};

use records::kind;
use test::{begins_ops, extends, takes_section};
use write::{append_words, least_bytes, move_end, write_number};

// The minimal push of a 64-bit number has at most so many bytes.
const LONGEST_PUSH: usize = 9;

// Data is most often a constant of one EVM word.
const DATA_WORD: usize = 32;

// The longest immediate, that of PUSH32.
const LONGEST_IMMEDIATE: usize = 32;

// An op byte that extends a last Ops section.
pub fn extend_op(state: u64, bytes: &mut [u8], words: &mut [u32], op: u8) -> Option<u64>
    ensures { TriedSection (ops (op ∷ [])) (store_in state bytes.old words.old) result
        bytes.new words.new }
{
    if !extends(state, bytes, words, kind::OPS, 1) {
        return None;
    }
    bytes[(state % numbers::SECTION) as usize] = op;
    Some(move_end(state, words, 1))
}

// An op byte that begins an Ops section.
pub fn begin_op(state: u64, bytes: &mut [u8], words: &mut [u32], op: u8) -> Option<u64>
    ensures { TriedSection (ops (op ∷ [])) (store_in state bytes.old words.old) result
        bytes.new words.new }
{
    if !begins_ops(state, bytes, words, 1) {
        return None;
    }
    let stored = (state % numbers::SECTION) as u32;
    bytes[stored as usize] = op;
    Some(append_words(state, words, kind::OPS, stored, stored + 1) + 1)
}

// Op bytes that begin an Ops section.
pub fn begin_ops(state: u64, bytes: &mut [u8], words: &mut [u32], added: &[u8]) -> Option<u64>
    ensures { TriedSection (ops added.now) (store_in state bytes.old words.old) result
        bytes.new words.new }
{
    if !begins_ops(state, bytes, words, added.len()) {
        return None;
    }
    let stored = (state % numbers::SECTION) as u32;
    let count = added.len() as u32;
    slices::write_bytes(bytes, stored as usize, added);
    Some(append_words(state, words, kind::OPS, stored, stored + count) + (count as u64))
}

// Op bytes that extend a last Ops section.
pub fn extend_ops(state: u64, bytes: &mut [u8], words: &mut [u32], added: &[u8]) -> Option<u64>
    ensures { TriedSection (ops added.now) (store_in state bytes.old words.old) result
        bytes.new words.new }
{
    extend_bytes(state, bytes, words, kind::OPS, added)
}

// An instruction, its op byte and an immediate of at most 32 bytes, that extends a last Ops section. The immediate is copied from where it
// is, and read only after the op byte is written, so that no register holds it over the tests.
pub fn extend_instruction(
    state: u64,
    bytes: &mut [u8],
    words: &mut [u32],
    op: u8,
    immediate: &[u8],
) -> Option<u64>
    ensures { TriedSection (ops (op ∷ immediate.now)) (store_in state bytes.old words.old) result
        bytes.new words.new }
{
    if LONGEST_IMMEDIATE < immediate.len() {
        return None;
    }
    let count = 1 + immediate.len();
    if !extends(state, bytes, words, kind::OPS, count) {
        return None;
    }
    let at = (state % numbers::SECTION) as usize;
    bytes[at] = op;
    slices::write_bytes(bytes, at + 1, immediate);
    Some(move_end(state, words, count as u32))
}

// Data that extends a last Data section.
pub fn extend_data(state: u64, bytes: &mut [u8], words: &mut [u32], added: &[u8]) -> Option<u64>
    ensures { TriedSection (data_section added.now) (store_in state bytes.old words.old) result
        bytes.new words.new }
{
    if added.len() == DATA_WORD {
        let mut word = [0; DATA_WORD];
        slices::write_bytes(&mut word, 0, added);
        return extend_bytes(state, bytes, words, kind::DATA, &word);
    }
    extend_bytes(state, bytes, words, kind::DATA, added)
}

// Op bytes or data, by their kind.
fn extend_bytes(
    state: u64,
    bytes: &mut [u8],
    words: &mut [u32],
    kind: u32,
    added: &[u8],
) -> Option<u64>
    requires { (0 < kind) × (kind < 3) }
    ensures { TriedSection (span_section kind added.now) (store_in state bytes.old words.old) result
        bytes.new words.new }
{
    if !extends(state, bytes, words, kind, added.len()) {
        return None;
    }
    slices::write_bytes(bytes, (state % numbers::SECTION) as usize, added);
    Some(move_end(state, words, added.len() as u32))
}

// The minimal push of a number that extends a last Ops section.
pub fn extend_push(state: u64, bytes: &mut [u8], words: &mut [u32], value: u64) -> Option<u64>
    ensures { TriedSection (ops (minimal_push value)) (store_in state bytes.old words.old) result
        bytes.new words.new }
{
    if !extends(state, bytes, words, kind::OPS, LONGEST_PUSH) {
        return None;
    }
    let at = (state % numbers::SECTION) as usize;
    let count = least_bytes(value);
    bytes[at] = evm::op::PUSH0 + (count as u8);
    write_number(bytes, at + 1, count, value);
    Some(move_end(state, words, 1 + (count as u32)))
}

// Three words after a last section: a mark or a reference, whose numbers the caller has judged.
pub fn put_section(
    state: u64,
    bytes: &[u8],
    words: &mut [u32],
    kind: u32,
    first: u32,
    second: u32,
) -> Option<u64>
    ensures { TriedWords (stored_section kind first second) (store_in state bytes.now words.old) result
        bytes.now words.new }
{
    if !takes_section(state, bytes, words) {
        return None;
    }
    Some(append_words(state, words, kind, first, second))
}
