// Document 01, module 5: the lines of display.rs, each added to a text sink: marks, data, references. Those of an Ops section are in
// ops.rt, the sink is in text.rt. Beside them two writers of text.rt are public: bytes in hex and a number in decimal, over a part of a
// lent text.
#![tactic(auto)]

mod ops;
mod text;

ghost use Rattle.std.specs.Prelude.{◌≡◌};
ghost use Rattle.undamaged.specs.Section.{span_bytes};
ghost use Rattle.lines.specs.Lines.{mark_name, mark_line, data_line};
ghost use Rattle.lines.specs.Lines.{push_text, delta_text, marks_text, size_text, reference_line};
ghost use Rattle.lines.specs.Sink.{added};

pub use text::{TextSink, write_decimal, write_hex};
use units::{AsmBytesIdx, AsmReference, MarkId, MarkReference, RefSize, Span};

impl<'a> TextSink<'a> {
    // `.mark7`
    fn put_mark_name(&mut self, mark: MarkId)
        ensures { self.new ≡ added self.old (mark_name mark.0) }
    {
        self.put(b".mark");
        self.put_decimal(mark.0);
    }

    // `.mark7:`
    #[tactic(auto, using(crate::proofs::Sinks::then), unfolding(crate::specs::Lines::mark_line, opcodes::specs::Text::as_bytes))]
    pub fn put_mark_line(&mut self, mark: MarkId)
        ensures { self.new ≡ added self.old (mark_line mark.0) }
    {
        self.put_mark_name(mark);
        self.put(b":\n");
    }

    // `  data 0xaabb (2 bytes)`, of the bytes that there are between the span's ends
    pub fn put_data_line(&mut self, bytes: &[u8], span: Span<AsmBytesIdx>)
        ensures { self.new ≡ added self.old (data_line (span_bytes bytes.now span)) }
    {
        let end = (span.end.0 as usize).min(bytes.len());
        let start = (span.start.0 as usize).min(end);
        self.put(b"  data 0x");
        self.put_hex(&bytes[start..end]);
        self.put(b" (");
        self.put_decimal((end - start) as u32);
        self.put(b" bytes)\n");
    }

    // `  PUSH ` or `  RAW `
    #[tactic(auto, unfolding(opcodes::specs::Text::as_bytes))]
    fn put_pushed(&mut self, pushed: bool)
        ensures { self.new ≡ added self.old (push_text pushed) }
    {
        if pushed {
            self.put(b"  PUSH ");
        } else {
            self.put(b"  RAW ");
        }
    }

    // `(.mark1 - .mark0)`, the end first
    fn put_delta(&mut self, span: Span<MarkId>)
        ensures { self.new ≡ added self.old (delta_text span) }
    {
        self.put(b"(");
        self.put_mark_name(span.end);
        self.put(b" - ");
        self.put_mark_name(span.start);
        self.put(b")");
    }

    // `.mark7` or `(.mark1 - .mark0)`
    fn put_marks(&mut self, mark_ref: MarkReference)
        ensures { self.new ≡ added self.old (marks_text mark_ref) }
    {
        match mark_ref {
            MarkReference::Direct(mark) => self.put_mark_name(mark),
            MarkReference::Delta(span) => self.put_delta(span),
        }
    }

    // `:2`, or nothing if unsized
    fn put_size(&mut self, set_size: Option<RefSize>)
        ensures { self.new ≡ added self.old (size_text set_size) }
    {
        match set_size {
            Some(size) => {
                self.put(b":");
                self.put_decimal(size.bytes());
            }
            None => self.put(b""),
        }
    }

    // `  PUSH .mark1` or `  RAW (.mark1 - .mark0):2`
    #[tactic(auto, using(crate::proofs::Sinks::then), unfolding(crate::specs::Lines::reference_line, opcodes::specs::Text::as_bytes))]
    pub fn put_reference_line(&mut self, reference: AsmReference)
        ensures { self.new ≡ added self.old (reference_line reference) }
    {
        self.put_pushed(reference.pushed);
        self.put_marks(reference.mark_ref);
        self.put_size(reference.set_size);
        self.put(b"\n");
    }
}
