// The steps that assemble the store into the result, settle its offsets, and write its code by the table as it is. Each slice is lent by
// `&mut *`, also where the call only reads it: the borrow checker covers no `&` of a field here beside a loan of another.
use crate::machine::Machine;
use crate::stop::Stop;
use std::io::Print;
use units::LaidOut;

impl<'a> Machine<'a> {
    // The code, written into the result from the position on.
    pub(crate) fn assemble(&mut self, position: usize) -> Result<(), Stop> {
        let answer = assembler::assemble(
            self.store,
            &mut *self.bytes,
            &mut *self.words,
            &mut *self.table,
            &mut *self.result,
            position,
        );
        self.say_laid_out(answer?)
    }

    // The code by the table as it is, written into the result from the position on.
    pub(crate) fn write(&mut self, position: usize) -> Result<(), Stop> {
        let answer = assembler::write(
            self.store,
            &mut *self.bytes,
            &mut *self.words,
            &mut *self.table,
            &mut *self.result,
            position,
        );
        self.say_laid_out(answer?)
    }

    // The offsets, into the table.
    pub(crate) fn settle(&mut self) -> Result<(), Stop> {
        let answer = settling::settle(
            self.store,
            &mut *self.bytes,
            &mut *self.words,
            &mut *self.table,
        );
        self.say_laid_out(answer?)
    }

    fn say_laid_out(&self, laid_out: LaidOut) -> Result<(), Stop> {
        println!(self.out; "length {} passes {}", laid_out.length, laid_out.passes)?;
        Ok(())
    }
}
