// Document 02, request 2: the text that is printed for a job, on slices as long as the request says. Theorems, in proofs/: when a job is
// 15, which numbers it can answer, and that the text depends on the job alone.
#![tactic(auto)]

ghost use Rattle.std.specs.Prelude.{◌≡◌, length};
ghost use Rattle.records.specs.Store.{words_per_section};
ghost use Rattle.job_steps.specs.JobFormat.{step_count};
ghost use Rattle.jobs.specs.JobOutcome.{answer_of, job_outcome, TextWithin};
ghost use Rattle.job_text.specs.Printed.{request_slices};

use jobs::{JobRun, ShortText, run_job};
use reads::filled;

// The longest text, that of 65,536 bytes of code: `code `, two digits for each byte, a line feed.
pub const TEXT_BYTES: usize = 131078;

const STORE_BYTES: usize = 65536;

const RESULT_BYTES: usize = 65536;

// Three words for each section, and a section for each step of the longest job, 3,640.
const WORDS: usize = 10920;

const TABLE_MARKS: usize = 16384;

// Writes what is printed for a job to the text's start: the job run on 65,536 store bytes, 65,536 result bytes, a section for each step
// and a table of 16,384 marks. Refusals: 15 no job; then 3 or 4 of the first refused call; then 7 to 13, 17 or 18 of assembly. A text of
// fewer than 131,078 bytes is too short: this is tested first, and nothing changes.
pub fn write_text(job: &[u8], text: &mut [u8]) -> Result<JobRun, ShortText>
    ensures answer { answer_of result
        ≡ (job_outcome words_per_section job.now (request_slices (step_count job.now)) text.old).answer }
    ensures text { text.new
        ≡ (job_outcome words_per_section job.now (request_slices (step_count job.now)) text.old).text }
    ensures within { TextWithin (length text.new) result }
{
    let mut bytes: [u8; STORE_BYTES] = filled(0);
    let mut words: [u32; WORDS] = filled(0);
    let mut table: [u32; TABLE_MARKS] = filled(0);
    let mut result: [u8; RESULT_BYTES] = filled(0);
    run_job(job, &mut bytes, &mut words, &mut table, &mut result, text)
}
