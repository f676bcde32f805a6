// Document 02, request 2: a job, from its bytes to the text that is printed for it, on lent slices. `run_job` is the one public function.
// What a job is, and its steps, stand in `job_steps`.
#![tactic(auto)]

mod text;

ghost use Rattle.std.specs.Prelude.{◌≡◌, ◌≤◌, ltb, length};
ghost use Rattle.records.specs.Store.{words_per_section};
ghost use Rattle.slices.specs.Over.{over};
ghost use Rattle.jobs.specs.JobText.{text_for, longest_text};
ghost use Rattle.jobs.specs.JobOutcome.{lent_slices, job_reply, job_result, FitsIn, answer_of, job_outcome, TextWithin};

use assembler::assemble;
use job_steps::{JobError, build_job};
use text::{write_code, write_refused};
use units::LaidOut;

// What running a job answers: what the job came to, and the text's length.
#[derive(Clone, Copy, Debug, PartialEq, Eq)]
pub struct JobRun {
    pub reply: Result<LaidOut, JobError>,
    pub text_length: usize,
}

// The text buffer is shorter than the longest text.
#[derive(Clone, Copy, Debug, PartialEq, Eq)]
pub struct ShortText;

// 15: the number of a job that is none.
const BAD_JOB: u32 = 15;

// The length of the longest refusal's text, `refused 15 at 4294967295` and a line feed.
const LONGEST_REFUSAL: usize = 25;

// Runs a job on lent slices and writes its text to the start of the text buffer. Refusals: 15 no job, before any call, and no slice but
// the text is changed; then that of the first refused call of its steps, and the store's slices are as the call before it left them;
// then assembly's, 7 to 13, 17 or 18, and the table is all 0, the result as it was. A text buffer shorter than the longest text,
// 131,078 bytes for a result of 65,536, is tested first, and nothing changes.
pub fn run_job(
    job: &[u8],
    bytes: &mut [u8],
    words: &mut [u32],
    table: &mut [u32],
    res: &mut [u8],
    text: &mut [u8],
) -> Result<JobRun, ShortText>
    ensures answer { answer_of result
        ≡ (job_outcome words_per_section job.now
        (lent_slices bytes.old words.old table.old res.old) text.old).answer }
    ensures slices { lent_slices bytes.new words.new table.new res.new
        ≡ (job_outcome words_per_section job.now
        (lent_slices bytes.old words.old table.old res.old) text.old).slices }
    ensures text { text.new
        ≡ (job_outcome words_per_section job.now
        (lent_slices bytes.old words.old table.old res.old) text.old).text }
    ensures within { TextWithin (length text.new) result }
{
    if is_short(text.len(), res.len()) {
        return Err(ShortText);
    }
    let reply = make(job, bytes, words, table, res);
    let text_length = write_reply(reply, res, text);
    Ok(JobRun { reply, text_length })
}

// A text buffer of so many bytes is shorter than the longest text for a result of so many.
fn is_short(text: usize, res: usize) -> bool
    ensures { result ≡ ltb text (longest_text res) }
{
    text < LONGEST_REFUSAL || (text - 6) / 2 < res
}

// The text of a reply.
fn write_reply(reply: Result<LaidOut, JobError>, res: &[u8], text: &mut [u8]) -> usize
    requires res_in_bounds { longest_text (length res.now) ≤ length text.old }
    requires fits_in { FitsIn (length res.now) (job_reply reply) }
    ensures upper_bound { result ≤ length text.old }
    ensures value { result ≡ length (text_for (job_reply reply) res.now) }
    ensures text_after { text.new ≡ over text.old 0 (text_for (job_reply reply) res.now) }
{
    match reply {
        Ok(laid) => write_code(text, &res[..laid.length as usize]),
        Err(JobError::Refused(refusal)) => write_refused(text, refusal.number(), refusal.section()),
        Err(JobError::BadJob) => write_refused(text, BAD_JOB, 0),
    }
}

// 15, or the calls in turn and then assembly.
// Kept: the four slices as parameters; a struct of them would stand only between this function and `run_job`, which keeps its own.
fn make(
    job: &[u8],
    bytes: &mut [u8],
    words: &mut [u32],
    table: &mut [u32],
    res: &mut [u8],
) -> Result<LaidOut, JobError>
    ensures result_value { job_reply result ≡ (job_result words_per_section job.now
        (lent_slices bytes.old words.old table.old res.old)).reply }
    ensures res_after { lent_slices bytes.new words.new table.new res.new
        ≡ (job_result words_per_section job.now
        (lent_slices bytes.old words.old table.old res.old)).slices }
{
    let store = build_job(job, bytes, words)?;
    Ok(assemble(store, bytes, words, table, res, 0)?)
}
