// The tests for number 6: the whole store's, and the lesser one of a building call.
// Kept: counts, bytes and words apart, and the room for the words asked thrice: a type for good counts alone would stand for these three calls.
ghost use Rattle.std.specs.Prelude.{◌≡◌, Some, false, cond, ◌&&◌, ◌+◌, ◌*◌, ◌≤◌, ltb, eqb, length};
ghost use Rattle.records.specs.Store.{store_of, words_per_section, words_at, bad_counts};
ghost use Rattle.records.specs.Record.{read_section, max_mark, mark_kind, direct_kind};
ghost use Rattle.records.specs.Damage.{unreadable, is_span, spans_end, broken_reply, soundness_of, whole_soundness, last_soundness};
ghost use Rattle.units.specs.declared.reply.Refusal.TheVariants as refusal;
ghost use Rattle.records.specs.Held.{held_by, held_read, ends_elsewhere, span_misplaced, is_misplaced, end_after};

use crate::record::{AsmSection, StoredSection, read_section};
use crate::{Assembler, kind};
use units::{AsmBytesIdx, Refusal, Span, form};

// A damaged store: the section that number 6 reports.
#[derive(Clone, Copy, Debug, PartialEq, Eq)]
pub struct Damage {
    pub section: u32,
}

impl From<Damage> for Refusal {
    ghost from_gives = { λ damage r. r ≡ refusal.Damaged damage.section };

    fn from(damage: Damage) -> Refusal {
        Refusal::Damaged {
            section: damage.section,
        }
    }
}

// What the tests need of a section that can be read: the span of Ops or Data, or nothing of a mark or a reference. It stays in registers,
// where a whole `AsmSection` goes by way of memory (docs/PERFORMANCE.md).
type Held = Option<Span<AsmBytesIdx>>;

// The whole test: bad counts first, then the first section that breaks a rule.
pub fn check_store(store: Assembler, bytes: &[u8], words: &[u32]) -> Result<(), Damage>
    ensures { soundness_of result ≡ whole_soundness words_per_section (store_of store bytes.now words.now) }
{
    if counts_are_bad(store, bytes, words) {
        return Err(Damage { section: 0 });
    }
    let spans = spans_end(store, bytes, words);
    if bytes_unheld(store.bytes, spans) {
        return Err(Damage { section: 0 });
    }
    check_sections(store, bytes, words, spans)
}

// A building call's test: the counts, and the last section only.
pub fn check_last(store: Assembler, bytes: &[u8], words: &[u32]) -> Result<(), Damage>
    ensures { soundness_of result ≡ last_soundness words_per_section (store_of store bytes.now words.now) }
{
    if counts_are_bad(store, bytes, words) {
        return Err(Damage { section: 0 });
    }
    if bytes_unheld(store.bytes, store.sections) {
        return Err(Damage { section: 0 });
    }
    let sections = store.sections;
    if sections == 0 {
        return Ok(());
    }
    let last = sections - 1;
    let Some(section) = read_section(section_words(words, last as usize)) else {
        return Err(Damage { section: last });
    };
    if ends_elsewhere(held_by(section), store.bytes) {
        Err(Damage { section: last })
    } else {
        Ok(())
    }
}

// Counts beyond slices or limits.
fn counts_are_bad(store: Assembler, bytes: &[u8], words: &[u32]) -> bool
    ensures { result ≡ bad_counts words_per_section (store_of store bytes.now words.now) }
{
    if bytes.len() < store.bytes as usize {
        return true;
    }
    if Assembler::MAX_BYTES < store.bytes {
        return true;
    }
    if Assembler::MAX_SECTIONS < store.sections {
        return true;
    }
    words.len() < Assembler::WORDS * (store.sections as usize)
}

// Bytes are stored, and there is nothing to hold them.
fn bytes_unheld(stored: u32, holders: u32) -> bool
    ensures { result ≡ (ltb 0 stored && eqb holders 0) }
{
    if stored == 0 {
        return false;
    }
    holders == 0
}

// The three words of section i.
// Kept: a private reader beside `UndamagedStore::section`, since a store is read here before it is found undamaged, and without a test of i.
fn section_words(words: &[u32], i: usize) -> StoredSection
    requires { words_per_section * (i + 1) ≤ length words.now }
    ensures { result ≡ words_at words_per_section words.now i }
{
    let at = Assembler::WORDS * i;
    StoredSection {
        kind: words[at],
        first: words[at + 1],
        second: words[at + 2],
    }
}

// An Ops or Data section, by its kind word.
fn is_span(kind: u32) -> bool
    ensures { result ≡ is_span kind }
{
    if kind == kind::OPS {
        return true;
    }
    kind == kind::DATA
}

// How many sections there are up to and with the last Ops or Data section.
// Kept: a count, 0 where there is none, since the definition `spans_end` is that count.
fn spans_end(store: Assembler, bytes: &[u8], words: &[u32]) -> u32
    requires { words_per_section * store.sections ≤ length words.now }
    ensures { result ≡ spans_end words_per_section (store_of store bytes.now words.now) store.sections }
{
    for i in (0..store.sections).rev() {
        if is_span(section_words(words, i as usize).kind) {
            return i + 1;
        }
    }
    0
}

// The greatest second word of a section without bytes, by its kind word.
fn greatest_second(kind: u32) -> u32
    ensures { result ≡ cond (eqb kind mark_kind) 0 (cond (eqb kind direct_kind) 12 max_mark) }
{
    if kind == kind::MARK {
        return 0;
    }
    if kind == kind::DIRECT {
        return form::MAX;
    }
    Assembler::MAX_MARK
}

// A section that can't be read. This is `read_section` with nothing made of what is read: every call and every walk asks it. Bytes or
// not is its one branch: a branch predictor can't guess the kinds of a mixed store.
fn is_unreadable(section: StoredSection) -> bool
    ensures { result ≡ unreadable (read_section section) }
{
    let kind = section.kind;
    let first = section.first;
    let second = section.second;
    if is_span(kind) {
        return second < first;
    }
    let limit = greatest_second(kind);
    (Assembler::MAX_MARK < first)
        | (limit < second)
        | (kind::LAST < kind)
        | ((kind == kind::DIRECT) & (form::MAX_SIZE < second) & (second < form::PUSHED))
}

// What three words that can be read hold of the bytes.
fn held_in(section: StoredSection) -> Held
    requires { unreadable (read_section section) ≡ false }
    ensures { Some result ≡ held_read (read_section section) }
{
    if !is_span(section.kind) {
        return None;
    }
    Some(Span {
        start: AsmBytesIdx(section.first),
        end: AsmBytesIdx(section.second),
    })
}

// What a section holds of the bytes.
fn held_by(section: AsmSection) -> Held
    ensures { result ≡ held_by section }
{
    match section {
        AsmSection::Mark(_) => None,
        AsmSection::Ops(span) => Some(span),
        AsmSection::Data(span) => Some(span),
        AsmSection::MarkRef(_) => None,
    }
}

// A section with bytes that ends elsewhere than at the stored count.
fn ends_elsewhere(held: Held, stored: u32) -> bool
    ensures { result ≡ ends_elsewhere held stored }
{
    held.is_some_and(|span| span.end.0 != stored)
}

// Bytes that start elsewhere than at the previous end, or, the last, end elsewhere than at the stored count.
fn span_misplaced(span: Span<AsmBytesIdx>, previous_end: u32, is_last: bool, stored: u32) -> bool
    ensures { result ≡ span_misplaced span previous_end is_last stored }
{
    if span.start.0 != previous_end {
        return true;
    }
    if is_last { span.end.0 != stored } else { false }
}

// So of a section, which has bytes or not.
fn is_misplaced(held: Held, previous_end: u32, is_last: bool, stored: u32) -> bool
    ensures { result ≡ is_misplaced held previous_end is_last stored }
{
    held.is_some_and(|span| span_misplaced(span, previous_end, is_last, stored))
}

// The end of the last Ops or Data section, with one section more.
fn end_after(held: Held, end: u32) -> u32
    ensures { result ≡ end_after held end }
{
    held.map_or(end, |span| span.end.0)
}

// The first section that breaks a rule.
fn check_sections(store: Assembler, bytes: &[u8], words: &[u32], spans: u32) -> Result<(), Damage>
    requires sections_in_bounds { words_per_section * store.sections ≤ length words.now }
    requires spans_value { spans ≡ spans_end words_per_section (store_of store bytes.now words.now) store.sections }
    ensures { soundness_of result ≡ broken_reply words_per_section (store_of store bytes.now words.now) }
{
    let mut end: u32 = 0;
    for i in 0..store.sections {
        let section = section_words(words, i as usize);
        if is_unreadable(section) {
            return Err(Damage { section: i });
        }
        let held = held_in(section);
        if is_misplaced(held, end, i + 1 == spans, store.bytes) {
            return Err(Damage { section: i });
        }
        end = end_after(held, end);
    }
    Ok(())
}
