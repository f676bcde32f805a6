// The steps of a job, each as its call, up to the first that is refused.
ghost use Rattle.std.specs.Prelude.{◌≡◌, true, length, map};
ghost use Rattle.records.specs.Store.{store_of, empty_counts, words_per_section};
ghost use Rattle.calls.specs.Calls.{push_reply, push_after, all_reply};
ghost use Rattle.store.specs.Built.{built_reply};
ghost use Rattle.job_steps.specs.JobFormat.{all_listed, step_of};
ghost use Rattle.job_steps.specs.JobBuild.{job_built_reply};
ghost use Rattle.job_steps.specs.JobCalls.{push_of, calls_of, built_by};

use crate::JobError;
use crate::read::{Parts, step_of};
use crate::validate::{Call, call_of};
use records::Assembler;
use store::{push_data, push_mark, push_op_byte, push_reference};
use units::Refusal;

// Makes a call. Lent, since a copy of it goes by way of memory.
fn make_call(
    call: &Call<'_>,
    store: Assembler,
    bytes: &mut [u8],
    words: &mut [u32],
) -> Result<Assembler, Refusal>
    ensures reply { built_reply result ≡ push_reply words_per_section (push_of call.now)
        (store_of store bytes.old words.old) }
    ensures bytes { bytes.new ≡ (push_after words_per_section (push_of call.now)
        (store_of store bytes.old words.old)).bytes }
    ensures words { words.new ≡ (push_after words_per_section (push_of call.now)
        (store_of store bytes.old words.old)).words }
{
    match *call {
        Call::Mark(mark) => push_mark(store, bytes, words, mark),
        Call::OpByte(byte) => push_op_byte(store, bytes, words, byte),
        Call::Data(data) => push_data(store, bytes, words, data),
        Call::Reference(reference) => push_reference(store, bytes, words, reference),
    }
}

// The steps of a job, in turn, on an empty store.
pub(crate) fn run_steps(
    job: Parts<'_>,
    bytes: &mut [u8],
    words: &mut [u32],
) -> Result<Assembler, JobError>
    requires { all_listed (length job.pool.now) (map step_of job.steps.now) ≡ true }
    ensures reply { job_built_reply result ≡ all_reply words_per_section (calls_of job.entry.pool.now job.entry.steps.now)
        (store_of empty_counts bytes.old words.old) }
    ensures bytes { bytes.new ≡ (built_by words_per_section (calls_of job.entry.pool.now job.entry.steps.now)
        (store_of empty_counts bytes.old words.old)).bytes }
    ensures words { words.new ≡ (built_by words_per_section (calls_of job.entry.pool.now job.entry.steps.now)
        (store_of empty_counts bytes.old words.old)).words }
{
    let mut store = Assembler::new();
    for step in job.steps {
        // No step is unlisted: all were tested before the first call.
        let listed = call_of(step_of(step), job.pool);
        let Some(call) = &listed else {
            return Err(JobError::BadJob);
        };
        store = make_call(call, store, bytes, words)?;
    }
    Ok(store)
}
