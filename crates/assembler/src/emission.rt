// Document 01, module 4: the code of the sections, written into the lent result. Called after the settling or after the tests of a table, so
// every section is readable, every mark is in the table, no delta is backward, and the code fits: a public writer would have to walk the
// sections once more to find that out.
ghost use Rattle.std.specs.Prelude.{◌≡◌, ℕ, ◌+◌, ◌≤◌, ◌<◌, [], ◌∷◌, length};
ghost use Rattle.units.specs.Numbers.{big_endian};
ghost use Rattle.records.specs.Record.{form_of};
ghost use Rattle.records.specs.Store.{words_per_section, words_at};
ghost use Rattle.undamaged.specs.Section.{span_bytes, SpanIn};
ghost use Rattle.std.proofs.Math.Seq.{slice};
ghost use Rattle.slices.specs.Over.{over};
ghost use Rattle.layout.specs.Passes.{entry};
ghost use Rattle.assembler.specs.Emission.{opcode, code_of};
ghost use Rattle.settling.specs.SectionWalk.{sections_in, value_words};
ghost use Rattle.assembler.specs.Writing.{Fits, wrote, words_bytes, form_bytes, Writable, WritableReference};

use records::{StoredSection, form_of, kind};
use undamaged::UndamagedStore;
use units::{AsmBytesIdx, Span, form};

// The lent code and the place in it that the next byte goes to.
// Kept: `Fits` is asked by each method, since it is of the writer and of the bytes that this method writes.
// Kept: a writer of its own beside lines' `TextSink`, which tests the room at each byte; here there is room for the whole code.
#[derive(Drop)]
pub(crate) struct CodeWriter<'a> {
    pub(crate) code: &'a mut [u8],
    pub(crate) at: usize,
}

// Writes the code of every section, from a position on.
pub(crate) fn write_code(store: UndamagedStore, table: &[u32], res: &mut [u8], position: usize)
    requires by_index { (i : ℕ) → i < store.counts.sections
        → Writable store.bytes.now table.now (words_at words_per_section store.words.now i) }
    requires fits { position + length (code_of (entry table.now) (sections_in store)) ≤ length res.old }
    ensures { res.new ≡ over res.old position (code_of (entry table.now) (sections_in store.entry)) }
{
    let mut writer = CodeWriter {
        code: res,
        at: position,
    };
    writer.write_sections(store, table);
}

impl<'a> CodeWriter<'a> {
    // Writes every section.
    fn write_sections(&mut self, store: UndamagedStore, table: &[u32])
        requires by_index { (i : ℕ) → i < store.counts.sections
            → Writable store.bytes.now table.now (words_at words_per_section store.words.now i) }
        requires fits { Fits self.old (code_of (entry table.now) (sections_in store)) }
        ensures { self.new ≡ wrote self.old (code_of (entry table.now) (sections_in store.entry)) }
    {
        for i in 0..store.counts.sections {
            self.write_section(store.section(i), store.bytes, table);
        }
    }

    // Writes one section.
    fn write_section(&mut self, section: StoredSection, bytes: &[u8], table: &[u32])
        requires writable { Writable bytes.now table.now section }
        requires fits { Fits self.old (words_bytes table.now bytes.now section) }
        ensures { self.new ≡ wrote self.old (words_bytes table.now bytes.now section) }
    {
        if section.kind == kind::MARK {
            return;
        }
        if section.kind < kind::DIRECT {
            let span = Span {
                start: AsmBytesIdx(section.first),
                end: AsmBytesIdx(section.second),
            };
            return self.write_span(span, bytes);
        }
        self.write_reference(section, table);
    }

    // Writes a reference: 5f if pushed, unsized and 0, else the opcode if pushed, then the value.
    fn write_reference(&mut self, section: StoredSection, table: &[u32])
        requires writable_reference { WritableReference table.now section }
        requires fits { Fits self.old (form_bytes (form_of section) (value_words table.now section)) }
        ensures { self.new ≡ wrote self.old (form_bytes (form_of section) (value_words table.now section)) }
    {
        let value = value_of(section, table);
        let form = form_of(section);
        if form::is_push_zero(form, value) {
            return self.write_byte(evm::op::PUSH0);
        }
        let count = form::byte_count(form, value);
        self.write_opcode(form::PUSHED <= form, count);
        self.write_value(count, value);
    }

    // If pushed, the opcode.
    fn write_opcode(&mut self, pushed: bool, count: u32)
        requires { (count ≤ 4) × Fits self.old (opcode pushed count) }
        ensures { self.new ≡ wrote self.old (opcode pushed count) }
    {
        if pushed {
            self.write_byte(evm::op::PUSH0 + (count as u8));
        }
    }

    // Writes a value in one to four bytes, highest first.
    fn write_value(&mut self, count: u32, value: u32)
        requires { (count ≤ 4) × Fits self.old (big_endian count value) }
        ensures { self.new ≡ wrote self.old (big_endian count value) }
    {
        match count {
            1 => self.write_last::<1>(value),
            2 => self.write_last::<2>(value),
            3 => self.write_last::<3>(value),
            4 => self.write_last::<4>(value),
            _ => {}
        }
    }

    // Writes the last of a value's four bytes, so many as the compiler knows: a copy of any other count is a call of `memcpy`.
    fn write_last<const COUNT: usize>(&mut self, value: u32)
        requires { (COUNT ≤ 4) × Fits self.old (big_endian COUNT value) }
        ensures { self.new ≡ wrote self.old (big_endian COUNT value) }
    {
        let bytes = value.to_be_bytes();
        self.write_bytes(&bytes[4 - COUNT..]);
    }

    // Copies so many bytes as the compiler knows.
    fn write_bytes(&mut self, bytes: &[u8])
        requires { Fits self.old bytes.now }
        ensures { self.new ≡ wrote self.old bytes.now }
    {
        let end = self.at + bytes.len();
        self.code[self.at..end].copy_from_slice(bytes);
        self.at = end;
    }

    // Copies the bytes of a span: of one byte, of fewer than eight, or of more.
    // Kept: not by `write_bytes` of the whole span, which calls `memmove` for a count that the compiler doesn't know: nothing else in the
    // archive needs it. Nor by `slices::write_bytes`, which would test the room at each section.
    fn write_span(&mut self, span: Span<AsmBytesIdx>, bytes: &[u8])
        requires span_in { SpanIn (length bytes.now) span }
        requires fits { Fits self.old (span_bytes bytes.now span) }
        ensures { self.new ≡ wrote self.old (span_bytes bytes.now span) }
    {
        let start = span.start.0 as usize;
        let count = span.end.0 as usize - start;
        if count == 1 {
            return self.write_byte(bytes[start]);
        }
        if count < 8 {
            return self.write_few(span, bytes);
        }
        self.write_eights(span, bytes);
    }

    // One byte after another.
    fn write_few(&mut self, span: Span<AsmBytesIdx>, bytes: &[u8])
        requires span_in { SpanIn (length bytes.now) span }
        requires fits { Fits self.old (span_bytes bytes.now span) }
        ensures { self.new ≡ wrote self.old (span_bytes bytes.now span) }
    {
        for i in span.start.0 as usize..span.end.0 as usize {
            self.write_byte(bytes[i]);
        }
    }

    // In groups of eight. The last group is the span's last eight bytes, whether or not it begins in the one before it: so nothing is left
    // that would be copied one by one.
    fn write_eights(&mut self, span: Span<AsmBytesIdx>, bytes: &[u8])
        requires span_in { SpanIn (length bytes.now) span }
        requires long { span.start.0 + 8 ≤ span.end.0 }
        requires fits { Fits self.old (span_bytes bytes.now span) }
        ensures { self.new ≡ wrote self.old (span_bytes bytes.now span) }
    {
        let end = span.end.0 as usize;
        let at = self.write_groups(span, bytes);
        self.at -= at + 8 - end;
        self.write_eight(&bytes[end - 8..end]);
    }

    // The groups before the last; where the bytes stand that are left, at most eight.
    fn write_groups(&mut self, span: Span<AsmBytesIdx>, bytes: &[u8]) -> usize
        requires span_in { SpanIn (length bytes.now) span }
        requires fits { Fits self.old (span_bytes bytes.now span) }
        ensures left { (span.start.0 ≤ result) × (result ≤ span.end.0) × (span.end.0 ≤ result + 8) }
        ensures written { self.new ≡ wrote self.old (slice span.start.0 result bytes.now) }
    {
        let end = span.end.0 as usize;
        let mut at = span.start.0 as usize;
        while 8 < end - at {
            self.write_eight(&bytes[at..at + 8]);
            at += 8;
        }
        at
    }

    // Copies eight bytes, by way of an array: of that the compiler knows that it lies apart from the code, and makes one read and one write.
    fn write_eight(&mut self, bytes: &[u8])
        requires eight { length bytes.now ≡ 8 }
        requires fits { Fits self.old bytes.now }
        ensures { self.new ≡ wrote self.old bytes.now }
    {
        let Some(eight) = bytes.first_chunk::<8>() else {
            unreachable!();
        };
        let group = *eight;
        self.write_bytes(&group);
    }

    fn write_byte(&mut self, byte: u8)
        requires { Fits self.old (byte ∷ []) }
        ensures { self.new ≡ wrote self.old (byte ∷ []) }
    {
        self.code[self.at] = byte;
        self.at += 1;
    }
}

// A reference's value by the table.
// Kept: beside settling's `value_of`, asked for marks that the table has entries for: that one tests each index, here once a reference.
fn value_of(section: StoredSection, table: &[u32]) -> u32
    requires { WritableReference table.now section }
    ensures { result ≡ value_words table.now section }
{
    let start = table[section.first as usize];
    if section.kind == kind::DIRECT {
        return start;
    }
    let end = table[section.second as usize];
    end - start
}
