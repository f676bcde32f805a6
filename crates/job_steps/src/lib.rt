// Document 02, request 2: the first half of a job, from its bytes to the store that its steps build. `build_job` is the one public
// function.
#![tactic(auto)]

mod read;
mod run;
mod validate;

ghost use Rattle.std.specs.Prelude.{◌≡◌};
ghost use Rattle.records.specs.Store.{store_of, empty_counts, words_per_section};
ghost use Rattle.job_steps.specs.JobBuild.{job_built_reply, job_build};
ghost use Rattle.job_steps.specs.declared.JobError.TheVariants as job_error;

use records::Assembler;
use run::run_steps;
use units::Refusal;
pub use validate::MAX_JOB;
use validate::job_parts;

// Why a job came to nothing: it is none, which is number 15, or a call or assembly was refused.
#[derive(Clone, Copy, Debug, PartialEq, Eq)]
pub enum JobError {
    BadJob,
    Refused(Refusal),
}

impl From<Refusal> for JobError {
    ghost from_gives = { λ refusal error. error ≡ job_error.Refused refusal };

    fn from(refusal: Refusal) -> JobError {
        JobError::Refused(refusal)
    }
}

// Takes the steps of a job in turn, on an empty store over the lent slices. Refusals: 15 no job, before any call, and no slice is
// changed; then that of the first refused call, and the slices are as the call before it left them.
pub fn build_job(job: &[u8], bytes: &mut [u8], words: &mut [u32]) -> Result<Assembler, JobError>
    ensures reply { job_built_reply result
        ≡ (job_build words_per_section job.now (store_of empty_counts bytes.old words.old)).reply }
    ensures bytes { bytes.new
        ≡ (job_build words_per_section job.now (store_of empty_counts bytes.old words.old)).store.bytes }
    ensures words { words.new
        ≡ (job_build words_per_section job.now (store_of empty_counts bytes.old words.old)).store.words }
{
    let Some(parts) = job_parts(job) else {
        return Err(JobError::BadJob);
    };
    run_steps(parts, bytes, words)
}
