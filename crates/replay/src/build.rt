// The steps that make a building call.
use crate::machine::Machine;
use crate::memory::part_of;
use crate::step::Call;
use crate::stop::Stop;
use records::Assembler;
use std::io::Print;
use store::{
    push_data, push_dup, push_exchange, push_mark, push_minimal_u32, push_minimal_u64,
    push_minimal_u256, push_op_byte, push_op_bytes, push_reference, push_swap,
};

impl<'a> Machine<'a> {
    // A refused call leaves the store as it was.
    pub(crate) fn build(&mut self, call: Call) -> Result<(), Stop> {
        let store = self.call(call)?;
        self.store = store;
        println!(self.out; "stored {} {}", store.bytes, store.sections)?;
        Ok(())
    }

    fn call(&mut self, call: Call) -> Result<Assembler, Stop> {
        let store = self.store;
        let bytes = &mut *self.bytes;
        let words = &mut *self.words;
        let answer = match call {
            Call::Mark(mark) => push_mark(store, bytes, words, mark),
            Call::OpByte(byte) => push_op_byte(store, bytes, words, byte),
            Call::OpBytes(part) => push_op_bytes(store, bytes, words, part_of(self.pool, part)?),
            Call::Swap(depth) => push_swap(store, bytes, words, depth),
            Call::Dup(depth) => push_dup(store, bytes, words, depth),
            Call::Exchange(n, m) => push_exchange(store, bytes, words, n, m),
            Call::Data(part) => push_data(store, bytes, words, part_of(self.pool, part)?),
            Call::Reference(r) => push_reference(store, bytes, words, r),
            Call::MinimalU256(part) => push_minimal_u256(
                store,
                bytes,
                words,
                part_of(self.pool, part)?,
            ),
            Call::MinimalU64(value) => push_minimal_u64(store, bytes, words, value),
            Call::MinimalU32(value) => push_minimal_u32(store, bytes, words, value),
            Call::Clear => return Ok(store.clear()),
        };
        Ok(answer?)
    }
}
