// The calls that add a mark or a reference, a section of its own. A slice lent on goes by way of memory: `bytes` is taken anew for
// `push_words`, so that it does so there only and not on the short way.
ghost use Rattle.std.specs.Prelude.{◌≡◌, ltb};
ghost use Rattle.records.specs.Record.{max_mark, stored_section};
ghost use Rattle.records.specs.Store.{words_per_section};
ghost use Rattle.calls.specs.Calls.{push_mark, push_reference, names_large_mark, push_reply, push_after};
ghost use Rattle.calls.specs.Alone.{words_reply, words_after};
ghost use Rattle.numbers.specs.Numbers.{store_in, built_number};
ghost use Rattle.numbers.specs.Forms.{form_of, direct, delta, reference_number, reference_after};

use adding::add_section;
use numbers::{NAMES_NOTHING, delta_kind, is_form, refusal_number};
use records::{Assembler, kind, reference_words};
use units::{AsmReference, MarkReference, Refusal};

// Adds a mark. Refusals: 3, 6, 5.
pub fn push_mark(state: u64, bytes: &[u8], words: &mut [u32], mark: u32) -> u64
    ensures reply { result ≡ built_number (push_reply words_per_section (push_mark mark)
        (store_in state bytes.now words.old)) }
    ensures words { words.new ≡ (push_after words_per_section (push_mark mark)
        (store_in state bytes.now words.old)).words }
{
    if is_large(mark) {
        return refusal_number(Refusal::LargeMark);
    }
    if let Some(next) = short::put_section(state, bytes, words, kind::MARK, mark, 0) {
        return next;
    }
    push_words(state, &bytes[..], words, kind::MARK, mark, 0)
}

// Adds a reference to a mark's offset, in a form. Refusals: 255, 3, 6, 5.
pub fn push_direct(state: u64, bytes: &[u8], words: &mut [u32], mark: u32, form: u32) -> u64
    ensures reply { result ≡ reference_number words_per_section (direct mark) (form_of form)
        (store_in state bytes.now words.old) }
    ensures words { words.new ≡ reference_after words_per_section (direct mark) (form_of form)
        (store_in state bytes.now words.old) }
{
    if !is_form(form) {
        return NAMES_NOTHING;
    }
    if is_large(mark) {
        return refusal_number(Refusal::LargeMark);
    }
    if let Some(next) = short::put_section(state, bytes, words, kind::DIRECT, mark, form) {
        return next;
    }
    push_words(state, &bytes[..], words, kind::DIRECT, mark, form)
}

// Adds a reference to end's offset minus start's, in a form. Refusals: 255, 3, 6, 5.
pub fn push_delta(
    state: u64,
    bytes: &[u8],
    words: &mut [u32],
    start: u32,
    end: u32,
    form: u32,
) -> u64
    ensures reply { result ≡ reference_number words_per_section (delta start «end») (form_of form)
        (store_in state bytes.now words.old) }
    ensures words { words.new ≡ reference_after words_per_section (delta start «end») (form_of form)
        (store_in state bytes.now words.old) }
{
    if !is_form(form) {
        return NAMES_NOTHING;
    }
    if is_large_delta(start, end) {
        return refusal_number(Refusal::LargeMark);
    }
    let kind = delta_kind(form);
    if let Some(next) = short::put_section(state, bytes, words, kind, start, end) {
        return next;
    }
    push_words(state, &bytes[..], words, kind, start, end)
}

// Adds a reference. Refusals: 3, 6, 5.
pub fn push_reference(state: u64, bytes: &[u8], words: &mut [u32], r: AsmReference) -> u64
    ensures reply { result ≡ built_number (push_reply words_per_section (push_reference r)
        (store_in state bytes.now words.old)) }
    ensures words { words.new ≡ (push_after words_per_section (push_reference r)
        (store_in state bytes.now words.old)).words }
{
    let mark_ref = r.mark_ref;
    if names_large_mark(mark_ref) {
        return refusal_number(Refusal::LargeMark);
    }
    let section = reference_words(r);
    let kind = section.kind;
    let first = section.first;
    let second = section.second;
    push_words(state, bytes, words, kind, first, second)
}

// Adds a mark or a reference by its words, tried and judged: as a whole it is too large to be inlined, which would give the short ways a
// stack frame.
fn push_words(
    state: u64,
    bytes: &[u8],
    words: &mut [u32],
    kind: u32,
    first: u32,
    second: u32,
) -> u64
    ensures reply { result ≡ built_number (words_reply words_per_section (stored_section kind first second)
        (store_in state bytes.now words.old)) }
    ensures words { words.new ≡ (words_after words_per_section (stored_section kind first second)
        (store_in state bytes.now words.old)).words }
{
    if let Some(next) = short::put_section(state, bytes, words, kind, first, second) {
        return next;
    }
    add_section(state, bytes, words, kind, first, second)
}

// 3: a mark's number is too large.
fn is_large(mark: u32) -> bool
    ensures { result ≡ ltb max_mark mark }
{
    Assembler::MAX_MARK < mark
}

// 3: a mark of a delta is.
fn is_large_delta(start: u32, end: u32) -> bool
    ensures { result ≡ names_large_mark (delta start «end») }
{
    if is_large(start) {
        return true;
    }
    is_large(end)
}

// 3: a mark that a reference names is.
fn names_large_mark(mark_ref: MarkReference) -> bool
    ensures { result ≡ names_large_mark mark_ref }
{
    match mark_ref {
        MarkReference::Direct(id) => is_large(id.0),
        MarkReference::Delta(span) => is_large_delta(span.start.0, span.end.0),
    }
}
