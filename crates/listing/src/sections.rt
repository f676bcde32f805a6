// The sections of an undamaged store: their lines, added to a text sink.
ghost use Rattle.std.specs.Prelude.{◌≡◌, false, ◌≤◌, Some, length};
ghost use Rattle.std.proofs.lemmas.List.Edits.{sets};
ghost use Rattle.records.specs.Record.{direct_kind, span, read_section};
ghost use Rattle.records.specs.Damage.{unreadable};
ghost use Rattle.records.specs.Store.{words_per_section};
ghost use Rattle.undamaged.specs.Section.{ReadIn, marks_of};
ghost use Rattle.lines.specs.Sink.{added};
ghost use Rattle.listing.specs.Room.{store_in, words_text, store_text};

use lines::TextSink;
use records::{AsmSection, StoredSection, form_of, kind, set_size_of};
use undamaged::UndamagedStore;
use units::{AsmBytesIdx, AsmReference, MarkId, MarkReference, Span, form};

// The bytes that the words of Ops or Data name.
fn span_in(section: StoredSection) -> Span<AsmBytesIdx>
    ensures { result ≡ span section.first section.second }
{
    Span {
        start: AsmBytesIdx(section.first),
        end: AsmBytesIdx(section.second),
    }
}

// The marks that the words of a reference name.
fn marks_in(section: StoredSection) -> MarkReference
    ensures { result ≡ marks_of section }
{
    let first = MarkId(section.first);
    if section.kind == kind::DIRECT {
        return MarkReference::Direct(first);
    }
    MarkReference::Delta(Span {
        start: first,
        end: MarkId(section.second),
    })
}

// The reference that words of another kind than a mark, Ops or Data are read as.
fn reference_in(section: StoredSection) -> AsmReference
    requires { (direct_kind ≤ section.kind) × (unreadable (read_section section) ≡ false) }
    ensures { read_section section ≡ Some (AsmSection.MarkRef result) }
{
    let form = form_of(section);
    AsmReference {
        mark_ref: marks_in(section),
        set_size: set_size_of(form % form::PUSHED),
        pushed: form::PUSHED <= form,
    }
}

// Adds the lines of one section, from its words: a word becomes a mark or a byte position by the section's kind.
fn add_section(sink: &mut TextSink, bytes: &[u8], section: StoredSection)
    requires { ReadIn (length bytes.now) (read_section section) }
    ensures { sink.new ≡ added sink.old (words_text bytes.now section) }
{
    match section.kind {
        kind::MARK => sink.put_mark_line(MarkId(section.first)),
        kind::OPS => sink.put_ops_lines(bytes, span_in(section)),
        kind::DATA => sink.put_data_line(bytes, span_in(section)),
        _ => sink.put_reference_line(reference_in(section)),
    }
}

// The lines of every section of a store, written to the text's start; what it doesn't hold is counted alone. Answers their length.
pub(crate) fn write_store(text: &mut [u8], store: UndamagedStore) -> usize
    ensures length { result ≡ length (store_text words_per_section (store_in store.entry)) }
    ensures written { text.new ≡ sets text.old 0 (store_text words_per_section (store_in store.entry)) }
{
    let mut sink = TextSink::new(text, 0);
    for i in 0..store.counts.sections {
        add_section(&mut sink, store.bytes, store.section(i));
    }
    sink.place()
}
