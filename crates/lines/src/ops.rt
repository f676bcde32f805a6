// The lines of an Ops section: one for each instruction of the walk.
ghost use Rattle.std.specs.Prelude.{◌≡◌, ◌<◌, length, take};
ghost use Rattle.evm.specs.YellowPaper.{push_size};
ghost use Rattle.undamaged.specs.Section.{span_bytes};
ghost use Rattle.lines.specs.Put.{first_placed};
ghost use Rattle.lines.specs.Lines.{immediate_text, instruction_line, ops_lines};
ghost use Rattle.lines.specs.Sink.{added};

use crate::TextSink;
use evm::op;
use units::{AsmBytesIdx, Span};

impl<'a> TextSink<'a> {
    // ` 0x0102`, of a push of so many bytes before the rest of its section; cut where the section ends, ` 0x01 (truncated)`.
    fn put_immediate(&mut self, size: usize, rest: &[u8])
        requires { 0 < size }
        ensures { self.new ≡ added self.old (immediate_text size (take size rest.now)) }
    {
        self.put(b" 0x");
        if rest.len() < size {
            self.put_hex(rest);
            self.put(b" (truncated)");
            return;
        }
        self.put_hex(&rest[..size]);
    }

    // The immediate of an opcode before the rest of its section, if it has one.
    #[tactic(auto, using(crate::proofs::Turns::immediate_none, evm::proofs::Opcodes::push_bytes, evm::proofs::Opcodes::push_none))]
    fn put_operand(&mut self, opcode: u8, rest: &[u8])
        ensures { self.new ≡ added self.old (immediate_text (push_size opcode) (take (push_size opcode) rest.now)) }
    {
        match op::push_size(opcode) {
            Some(size) => self.put_immediate(size as usize, rest),
            None => self.put(b""),
        }
    }

    // `  JUMPDEST`, `  PUSH2 0x0102`, `  PUSH2 0x01 (truncated)`: the first instruction of what is left of a section.
    fn put_instruction(&mut self, code: &[u8])
        requires { 0 < length code.now }
        ensures { self.new ≡ added self.old (instruction_line (first_placed code.now)) }
    {
        let opcode = code[0];
        self.put(b"  ");
        self.put(opcodes::name(opcode).as_bytes());
        self.put_operand(opcode, &code[1..]);
        self.put(b"\n");
    }

    // A line for each instruction of an Ops section, of the bytes that there are between the span's ends.
    pub fn put_ops_lines(&mut self, bytes: &[u8], span: Span<AsmBytesIdx>)
        ensures { self.new ≡ added self.old (ops_lines (span_bytes bytes.now span)) }
    {
        let end = (span.end.0 as usize).min(bytes.len());
        let mut i = span.start.0 as usize;
        // Kept: a turn steps by an instruction's length; `successors` would give the places, and the loop would read the code at each again.
        while i < end {
            let code = &bytes[i..end];
            self.put_instruction(code);
            i += op::instruction_length(code[0]);
        }
    }
}
