// The steps that read a store, code or the pool and leave them as they are: the listing, whether a jump may land, the scan for the first
// nonzero byte, and a job.
use crate::machine::Machine;
use crate::memory::part_of;
use crate::step::BadStep;
use crate::stop::Stop;
use evm::landing::{Landing, lands};
use job_text::{TEXT_BYTES, write_text};
use reads::filled;
use std::io::Print;
use std::ops::Range;

impl<'a> Machine<'a> {
    // The listing, to the start of the text.
    pub(crate) fn list(&mut self) -> Result<(), Stop> {
        let length = listing::write_asm(
            self.store,
            &mut *self.bytes,
            &mut *self.words,
            &mut *self.text,
        )?;
        println!(self.out; "listing {length}")?;
        Ok(())
    }

    // Bytes of the text, as they are.
    pub(crate) fn show_text(&self, part: Range<usize>) -> Result<(), Stop> {
        let shown = part_of(self.text, part)?;
        self.out.write_all(shown)?;
        Ok(())
    }

    // Whether a jump may land at the offset in the result's first `end` bytes.
    pub(crate) fn land(&self, offset: usize, end: usize) -> Result<(), Stop> {
        let code = self.result.get(..end).ok_or(BadStep)?;
        let answer = match lands(code, offset) {
            Landing::Yes => "yes",
            Landing::No => "no",
        };
        println!(self.out; "{answer}")?;
        Ok(())
    }

    // The scan of bytes of the pool for the first nonzero one.
    pub(crate) fn scan(&self, part: Range<usize>) -> Result<(), Stop> {
        let scan = minimal::leading_zeros(part_of(self.pool, part)?);
        println!(self.out; "zeros {} looked {}", scan.zeros, scan.looked)?;
        Ok(())
    }

    // The job in bytes of the pool, on slices of its own. With room for the longest text no text is too short (`prints`, job_text JobAlone).
    pub(crate) fn run_job(&self, part: Range<usize>) -> Result<(), Stop> {
        let job = part_of(self.pool, part)?;
        let mut text: [u8; TEXT_BYTES] = filled(0);
        if let Ok(run) = write_text(job, &mut text) {
            self.out.write_all(&text[..run.text_length])?;
        }
        Ok(())
    }
}
