// Builds the store of document 01's line 12, a jump from one mark to the next, and prints its listing. No input.
// Every function is proved safe; what is printed is held against crates/show/stdout.
#![tactic(auto)]

use listing::write_asm;
use records::Assembler;
use std::io;
use std::io::Print;
use store::{push_data, push_mark, push_op_byte, push_reference};
use units::{AsmReference, MarkId, MarkReference, RefSize, Refusal, Span};

// The marks around the jump.
const FIRST: MarkId = MarkId(0);

const SECOND: MarkId = MarkId(1);

const JUMP: u8 = 0x56;

const JUMPDEST: u8 = 0x5b;

// The bytes that are stored, and the words of eight sections.
const BYTES: usize = 5;

const WORDS: usize = 24;

// Room for the listing.
const TEXT: usize = 256;

// The second mark's offset minus the first's, raw, in two bytes.
const DISTANCE: AsmReference = AsmReference {
    mark_ref: MarkReference::Delta(Span {
        start: FIRST,
        end: SECOND,
    }),
    set_size: Some(RefSize::S2),
    pushed: false,
};

// The store of line 12: a mark and a jump to the next one; there, two data bytes and the distance between the marks.
fn line_12(bytes: &mut [u8], words: &mut [u32]) -> Result<Assembler, Refusal> {
    let mut store = push_mark(Assembler::new(), bytes, words, FIRST)?;
    store = push_op_byte(store, bytes, words, JUMPDEST)?;
    store = push_reference(store, bytes, words, AsmReference::new_direct(SECOND))?;
    store = push_op_byte(store, bytes, words, JUMP)?;
    store = push_mark(store, bytes, words, SECOND)?;
    store = push_op_byte(store, bytes, words, JUMPDEST)?;
    store = push_data(store, bytes, words, b"\xaa\xbb")?;
    push_reference(store, bytes, words, DISTANCE)
}

// Where a call is refused, nothing is printed.
fn main(rt: HostRuntime) -> io::Result<()> {
    let mut bytes = [0; BYTES];
    let mut words = [0; WORDS];
    let mut text = [0; TEXT];
    let Ok(store) = line_12(&mut bytes, &mut words) else {
        return Ok(());
    };
    let Ok(length) = write_asm(store, &bytes, &words, &mut text) else {
        return Ok(());
    };
    rt.stdout().write_all(&text[..length])
}
