// What a script works on, and what each step does to it and prints.
use crate::memory::{UNWRITTEN_BYTE, UNWRITTEN_WORD, set, show};
use crate::step::{STEP_BYTES, Step};
use crate::stop::Stop;
use records::Assembler;
use std::io;
use std::io::{Print, Stdout};

// Where lines are printed, the store's counts, the pool and the lent slices.
#[derive(Drop)]
pub(crate) struct Machine<'a> {
    pub(crate) out: Stdout,
    pub(crate) store: Assembler,
    pub(crate) pool: &'a [u8],
    pub(crate) bytes: &'a mut [u8],
    pub(crate) words: &'a mut [u32],
    pub(crate) table: &'a mut [u32],
    pub(crate) result: &'a mut [u8],
    pub(crate) text: &'a mut [u8],
}

impl<'a> Machine<'a> {
    // Takes a step and prints its line.
    pub(crate) fn take(&mut self, step: [u8; STEP_BYTES]) -> io::Result<()> {
        match self.try_take(step) {
            Ok(()) => Ok(()),
            Err(Stop::Output(error)) => Err(error),
            Err(stop) => println!(self.out; "{stop}"),
        }
    }

    fn try_take(&mut self, step: [u8; STEP_BYTES]) -> Result<(), Stop> {
        match Step::try_from(step)? {
            Step::StartAnew => self.start_anew(),
            Step::Build(call) => self.build(call),
            Step::Scan(part) => self.scan(part),
            Step::SetByte(index, byte) => set(self.out, self.bytes, index, byte),
            Step::SetWord(index, word) => set(self.out, self.words, index, word),
            Step::SetOffset(mark, offset) => set(self.out, self.table, mark, offset),
            Step::SetCounts(counts) => self.set_counts(counts),
            Step::Assemble(position) => self.assemble(position),
            Step::List => self.list(),
            Step::Land { offset, end } => self.land(offset, end),
            Step::Settle => self.settle(),
            Step::ShowBytes(part) => show(self.out, "bytes", self.bytes, part, 2),
            Step::ShowWords(part) => show(self.out, "words", self.words, part, 8),
            Step::ShowTable(part) => show(self.out, "table", self.table, part, 8),
            Step::ShowResult(part) => show(self.out, "result", self.result, part, 2),
            Step::ShowText(part) => self.show_text(part),
            Step::Write(position) => self.write(position),
            Step::RunJob(part) => self.run_job(part),
        }
    }

    // Both counts 0, and every slice as if no call had written to it.
    fn start_anew(&mut self) -> Result<(), Stop> {
        self.store = Assembler::new();
        self.bytes.fill(UNWRITTEN_BYTE);
        self.words.fill(UNWRITTEN_WORD);
        self.table.fill(UNWRITTEN_WORD);
        self.result.fill(UNWRITTEN_BYTE);
        self.text.fill(UNWRITTEN_BYTE);
        println!(self.out; "new")?;
        Ok(())
    }

    fn set_counts(&mut self, counts: Assembler) -> Result<(), Stop> {
        self.store = counts;
        println!(self.out; "set")?;
        Ok(())
    }
}
