// The writers of the short ways, after a test that took the store.
ghost use Rattle.std.specs.Prelude.{◌≡◌, ◌+◌, ◌*◌, ◌/◌, ◌%◌, ◌^◌, ◌≤◌, ◌<◌, length};
ghost use Rattle.records.specs.Record.{stored_section};
ghost use Rattle.units.specs.Numbers.{big_endian, least_bytes};
ghost use Rattle.records.specs.Store.{max_sections, words_per_section, record_words};
ghost use Rattle.slices.specs.Over.{over};
ghost use Rattle.short.specs.Tests.{end_moved};

use numbers::SECTION;
use records::Assembler;

// The words of one section more; the next state. The short ways test the room as `write_words` does, so that its own test folds away.
pub(crate) fn append_words(state: u64, words: &mut [u32], kind: u32, first: u32, second: u32) -> u64
    requires { (state / 2 ^ 32 < max_sections) × (words_per_section * (state / 2 ^ 32 + 1) ≤ length words.old) }
    ensures state { result ≡ state + 2 ^ 32 }
    ensures words { words.new ≡ over words.old (words_per_section * (state / 2 ^ 32))
        (record_words words_per_section (stored_section kind first second)) }
{
    records::write_words(words, (state / SECTION) as u32, kind, first, second);
    state + SECTION
}

// The end of the last section, moved on; the next state.
pub(crate) fn move_end(state: u64, words: &mut [u32], added: u32) -> u64
    requires nonzero { (0 < state / 2 ^ 32) × (words_per_section * (state / 2 ^ 32) ≤ length words.old) }
    requires added_bound { state % 2 ^ 32 + added < 2 ^ 32 }
    ensures state { result ≡ state + added }
    ensures words { words.new ≡ end_moved words_per_section state words.old added }
{
    let last = (state / SECTION) as usize - 1;
    words[Assembler::WORDS * last + 2] = (state % SECTION) as u32 + added;
    state + (added as u64)
}

// The least count of bytes that a number fits in, 0 for 0.
pub(crate) fn least_bytes(value: u64) -> usize
    ensures { (result ≡ least_bytes 32 value) × (result ≤ 8) }
{
    let bits = u64::BITS - value.leading_zeros();
    bits.div_ceil(8) as usize
}

// A number in so many bytes, highest first; written from the lowest on.
// Kept: by division; a copy of the last bytes of `to_be_bytes` is of a count that the compiler doesn't know (slices, `copy_bytes`).
pub(crate) fn write_number(bytes: &mut [u8], at: usize, count: usize, value: u64)
    requires { at + count ≤ length bytes.old }
    ensures { bytes.new ≡ over bytes.old at (big_endian count value) }
{
    let mut rest = value;
    for left in (0..count).rev() {
        bytes[at + left] = (rest % 256) as u8;
        rest /= 256;
    }
}
