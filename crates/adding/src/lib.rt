// Document 01, module 2: what every building call comes to, by a state's number: 6, 4 and 5 are judged for the whole call, in this
// order, and only then is anything written. A run of op bytes (document 02, request 1) is judged byte by byte.
// Kept: a state and an answer are one number, since C has it so (building); by `?` from counts to a Result whose number one function makes, a mark and then a run of 8 took 1.12 of the time, data that begins a section 1.25.
#![tactic(auto)]

ghost use Rattle.std.specs.Prelude.{◌≡◌, ◌+◌, ◌*◌, ◌-◌, ◌^◌, ◌≤◌, ◌<◌, length, set};
ghost use Rattle.records.specs.Record.{stored_section};
ghost use Rattle.records.specs.Store.{words_per_section};
ghost use Rattle.calls.specs.Calls.{bytes_over, no_section_left, add_reply, add_after};
ghost use Rattle.calls.specs.Alone.{words_reply, words_after};
ghost use Rattle.calls.specs.AtOnce.{at_once_reply, at_once_after};
ghost use Rattle.numbers.specs.Numbers.{store_in, built_number};
ghost use Rattle.adding.specs.Adding.{kind_number, bytes_section, last_kind_is, ops_section_passes};

use numbers::{counts_in, refusal_number, state_of};
use records::{Assembler, check_last, kind, write_words};
use slices::write_bytes;
use units::Refusal;

// The two kinds of section that hold bytes.
#[derive(Clone, Copy, Debug, PartialEq, Eq)]
pub enum BytesKind {
    Ops,
    Data,
}

// The kind word of its section.
impl From<BytesKind> for u32 {
    ghost from_gives = { λ kind n. n ≡ kind_number kind };

    fn from(kind: BytesKind) -> u32 {
        match kind {
            BytesKind::Ops => kind::OPS,
            BytesKind::Data => kind::DATA,
        }
    }
}

// Adds op bytes or data, all or nothing: they extend a last section of their kind, else a section is added. Refusals: 6, 4, 5.
pub fn add_bytes(
    state: u64,
    bytes: &mut [u8],
    words: &mut [u32],
    kind: BytesKind,
    added: &[u8],
) -> u64
    ensures reply { result ≡ built_number (add_reply words_per_section (bytes_section kind added.now)
        (store_in state bytes.old words.old)) }
    ensures bytes { bytes.new ≡ (add_after words_per_section (bytes_section kind added.now)
        (store_in state bytes.old words.old)).bytes }
    ensures words { words.new ≡ (add_after words_per_section (bytes_section kind added.now)
        (store_in state bytes.old words.old)).words }
{
    let store = counts_in(state);
    if let Err(damage) = check_last(store, bytes, words) {
        return refusal_number(Refusal::from(damage));
    }
    if bytes_pass(store, bytes, added.len()) {
        return refusal_number(Refusal::BytesFull);
    }
    let at = store.bytes;
    let end = at + (added.len() as u32);
    let sections = store.sections;
    let number = u32::from(kind);
    if last_kind_is(sections, words, number) {
        write_bytes(bytes, at as usize, added);
        set_end(words, sections, end);
        return state_of(Assembler {
            bytes: end,
            sections,
        });
    }
    if no_section_left(sections, words) {
        return refusal_number(Refusal::SectionsFull);
    }
    write_bytes(bytes, at as usize, added);
    write_words(words, sections, number, at, end);
    state_of(Assembler {
        bytes: end,
        sections: sections + 1,
    })
}

// Adds a run of op bytes that isn't empty, judged byte by byte, all or nothing. Refusals: 6, 4 (no room for one byte), 5, 4 (no room for
// all). Judged here is the first byte: where it is accepted, no later one needs a section, and only the room for all is left to be judged.
// An empty run is taken too, and judged as one that needs room for a byte: its caller answers it without this.
pub fn add_run(state: u64, bytes: &mut [u8], words: &mut [u32], run: &[u8]) -> u64
    ensures reply { result ≡ built_number (at_once_reply words_per_section run.now
        (store_in state bytes.old words.old)) }
    ensures bytes { bytes.new ≡ (at_once_after words_per_section run.now
        (store_in state bytes.old words.old)).bytes }
    ensures words { words.new ≡ (at_once_after words_per_section run.now
        (store_in state bytes.old words.old)).words }
{
    let store = counts_in(state);
    if let Err(damage) = check_last(store, bytes, words) {
        return refusal_number(Refusal::from(damage));
    }
    if bytes_pass(store, bytes, 1) {
        return refusal_number(Refusal::BytesFull);
    }
    if ops_section_passes(store.sections, words) {
        return refusal_number(Refusal::SectionsFull);
    }
    add_bytes(state, bytes, words, BytesKind::Ops, run)
}

// Adds a section that nothing extends, a mark or a reference, given as its three words. Refusals: 6, 5.
// Kept: the words come as numbers: a struct would go by way of memory, some 15 cycles (docs/PLAN.md, "Tried").
pub fn add_section(
    state: u64,
    bytes: &[u8],
    words: &mut [u32],
    kind: u32,
    first: u32,
    second: u32,
) -> u64
    ensures reply { result ≡ built_number (words_reply words_per_section (stored_section kind first second)
        (store_in state bytes.now words.old)) }
    ensures words { words.new ≡ (words_after words_per_section (stored_section kind first second)
        (store_in state bytes.now words.old)).words }
{
    let store = counts_in(state);
    if let Err(damage) = check_last(store, bytes, words) {
        return refusal_number(Refusal::from(damage));
    }
    let sections = store.sections;
    if no_section_left(sections, words) {
        return refusal_number(Refusal::SectionsFull);
    }
    write_words(words, sections, kind, first, second);
    state_of(Assembler {
        bytes: store.bytes,
        sections: sections + 1,
    })
}

// 4: the stored bytes and those added pass slice or limit.
#[tactic(auto, using(crate::proofs::Parts::pass_slice, crate::proofs::Parts::pass_limit))]
fn bytes_pass(store: Assembler, bytes: &[u8], added: usize) -> bool
    requires { added < 2 ^ 63 }
    ensures { result ≡ bytes_over bytes.now store.bytes added }
{
    let end = (store.bytes as usize) + added;
    if bytes.len() < end {
        return true;
    }
    (Assembler::MAX_BYTES as usize) < end
}

// 5: one section more passes slice or limit.
#[tactic(auto, using(calls::proofs::Rooms::left_limit, calls::proofs::Rooms::left_slice))]
fn no_section_left(sections: u32, words: &[u32]) -> bool
    ensures { result ≡ no_section_left words_per_section sections words.now }
{
    let next = (sections as usize) + 1;
    if (Assembler::MAX_SECTIONS as usize) < next {
        return true;
    }
    words.len() < Assembler::WORDS * next
}

// There is a last section, and its kind is this.
#[tactic(auto, using(crate::proofs::Parts::kind_none, crate::proofs::Parts::kind_last))]
fn last_kind_is(sections: u32, words: &[u32], kind: u32) -> bool
    requires { words_per_section * sections ≤ length words.now }
    ensures { result ≡ last_kind_is words_per_section sections words.now kind }
{
    if sections == 0 {
        return false;
    }
    let last = (sections - 1) as usize;
    let found = words[Assembler::WORDS * last];
    found == kind
}

// 5, of op bytes: they need a section, since the last one isn't Ops, and none is left.
fn ops_section_passes(sections: u32, words: &[u32]) -> bool
    requires { words_per_section * sections ≤ length words.now }
    ensures { result ≡ ops_section_passes words_per_section sections words.now }
{
    if last_kind_is(sections, words, kind::OPS) {
        return false;
    }
    no_section_left(sections, words)
}

// Replaces the end of the last section.
fn set_end(words: &mut [u32], sections: u32, end: u32)
    requires { (0 < sections) × (words_per_section * sections ≤ length words.old) }
    ensures { words.new ≡ set words.old (words_per_section * (sections - 1) + 2) end }
{
    let last = (sections - 1) as usize;
    let at = Assembler::WORDS * last + 2;
    words[at] = end;
}
