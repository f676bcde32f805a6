// One section: read from its three words, a reference put into words, and three words written.
ghost use Rattle.std.specs.Prelude.{◌≡◌, ◌*◌, Some, None, cond, leb};
ghost use Rattle.slices.specs.Over.{over_if_room};
ghost use Rattle.records.specs.Record.{read_section, read_mark, span, read_direct, read_delta, read_ref, set_size_of};
ghost use Rattle.records.specs.Record.{reference_words, form_of, stored_section};
ghost use Rattle.records.specs.Store.{words_per_section, record_words};

use crate::{Assembler, kind};
use units::{
    AsmBytesIdx, AsmReference, MarkId, MarkReference, RefSize, Span, form, set_size_number,
};

// A section as it is read back.
#[derive(Clone, Copy, Debug, PartialEq, Eq)]
pub enum AsmSection {
    Mark(MarkId),
    Ops(Span<AsmBytesIdx>),
    Data(Span<AsmBytesIdx>),
    MarkRef(AsmReference),
}

// The three words of a section.
#[derive(Clone, Copy, Debug, PartialEq, Eq)]
pub struct StoredSection {
    pub kind: u32,
    pub first: u32,
    pub second: u32,
}

// The section that three words stand for, none if it is damaged: an unlisted kind or field, a mark number too large, a start past its end.
#[tactic(auto, using(crate::proofs::Reading::section_mark, crate::proofs::Reading::section_ops, crate::proofs::Reading::section_data, crate::proofs::Reading::section_direct, crate::proofs::Reading::section_pushed_delta, crate::proofs::Reading::section_raw_delta, crate::proofs::Reading::section_unlisted))]
pub fn read_section(words: StoredSection) -> Option<AsmSection>
    ensures { result ≡ read_section words }
{
    let kind = words.kind;
    let first = words.first;
    let second = words.second;
    match kind {
        kind::MARK => read_mark(first, second),
        kind::OPS => Some(AsmSection::Ops(read_span(first, second)?)),
        kind::DATA => Some(AsmSection::Data(read_span(first, second)?)),
        kind::DIRECT => read_direct(first, second),
        kind::PUSHED_DELTA..=kind::LAST_PUSHED_DELTA => read_delta(
            kind - kind::PUSHED_DELTA,
            true,
            first,
            second,
        ),
        kind::RAW_DELTA..=kind::LAST => read_delta(kind - kind::RAW_DELTA, false, first, second),
        _ => None,
    }
}

#[tactic(auto, using(crate::proofs::Reading::mark_large, crate::proofs::Reading::mark_read, crate::proofs::Reading::mark_field))]
fn read_mark(first: u32, second: u32) -> Option<AsmSection>
    ensures { result ≡ read_mark first second }
{
    if first > Assembler::MAX_MARK {
        return None;
    }
    if second == 0 {
        Some(AsmSection::Mark(MarkId(first)))
    } else {
        None
    }
}

// The span of Ops or Data.
fn read_span(first: u32, second: u32) -> Option<Span<AsmBytesIdx>>
    ensures { result ≡ cond (leb first second) (Some (span first second)) None }
{
    if first > second {
        return None;
    }
    Some(Span {
        start: AsmBytesIdx(first),
        end: AsmBytesIdx(second),
    })
}

#[tactic(auto, using(crate::proofs::Reading::direct_large, crate::proofs::Reading::direct_raw, crate::proofs::Reading::direct_pushed, crate::proofs::Reading::direct_between, crate::proofs::Reading::direct_above))]
fn read_direct(first: u32, second: u32) -> Option<AsmSection>
    ensures { result ≡ read_direct first second }
{
    if first > Assembler::MAX_MARK {
        return None;
    }
    match second {
        0..=form::MAX_SIZE => read_ref(MarkReference::Direct(MarkId(first)), second, false),
        form::PUSHED..=form::MAX => read_ref(
            MarkReference::Direct(MarkId(first)),
            second - form::PUSHED,
            true,
        ),
        _ => None,
    }
}

#[tactic(auto, using(crate::proofs::Reading::delta_start_lem, crate::proofs::Reading::delta_end_lem, crate::proofs::Reading::delta_read))]
fn read_delta(size: u32, pushed: bool, first: u32, second: u32) -> Option<AsmSection>
    ensures { result ≡ read_delta size pushed first second }
{
    if first > Assembler::MAX_MARK {
        return None;
    }
    if second > Assembler::MAX_MARK {
        return None;
    }
    read_ref(
        MarkReference::Delta(Span {
            start: MarkId(first),
            end: MarkId(second),
        }),
        size,
        pushed,
    )
}

fn read_ref(mark_ref: MarkReference, size: u32, pushed: bool) -> Option<AsmSection>
    ensures { result ≡ read_ref mark_ref size pushed }
{
    Some(AsmSection::MarkRef(AsmReference {
        mark_ref,
        set_size: set_size_of(size),
        pushed,
    }))
}

// The set size that 0 (unsized) to 4 stand for; a larger number counts as 4.
// Kept: no `From`, since neither type is this crate's.
pub fn set_size_of(size: u32) -> Option<RefSize>
    ensures { result ≡ set_size_of size }
{
    match size {
        0 => None,
        1 => Some(RefSize::S1),
        2 => Some(RefSize::S2),
        3 => Some(RefSize::S3),
        _ => Some(RefSize::S4),
    }
}

// The three words of a reference.
pub fn reference_words(r: AsmReference) -> StoredSection
    ensures { result ≡ reference_words r }
{
    let size = set_size_number(r.set_size);
    match r.mark_ref {
        MarkReference::Direct(id) => StoredSection {
            kind: kind::DIRECT,
            first: id.0,
            second: if r.pushed { size + form::PUSHED } else { size },
        },
        MarkReference::Delta(span) => StoredSection {
            kind: if r.pushed {
                size + kind::PUSHED_DELTA
            } else {
                size + kind::RAW_DELTA
            },
            first: span.start.0,
            second: span.end.0,
        },
    }
}

// Writes the three words of section i, if there is room for them; else nothing changes. The room is tested as the short ways test it, so
// that for them this test folds away.
pub fn write_words(words: &mut [u32], i: u32, kind: u32, first: u32, second: u32)
    ensures { words.new ≡ over_if_room words.old (words_per_section * i)
        (record_words words_per_section (stored_section kind first second)) }
{
    let at = Assembler::WORDS * (i as usize);
    if at + Assembler::WORDS <= words.len() {
        words[at] = kind;
        words[at + 1] = first;
        words[at + 2] = second;
    }
}

// A reference's form, from its words: a direct one has it as a word, a delta in its kind. (Of other words, some number.)
#[tactic(auto, unfolding(crate::specs::Record::form_of))]
pub fn form_of(words: StoredSection) -> u32
    ensures { result ≡ form_of words }
{
    let kind = words.kind;
    if kind == kind::DIRECT {
        return words.second;
    }
    if kind < kind::RAW_DELTA {
        return kind + form::PUSHED - kind::PUSHED_DELTA;
    }
    kind - kind::RAW_DELTA
}
