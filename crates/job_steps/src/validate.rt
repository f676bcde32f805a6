// Whether bytes are a job. All that makes them 15 is found here, before any call.
ghost use Rattle.std.specs.Prelude.{◌≡◌, IfSome, is_some, length, map};
ghost use Rattle.std.specs.List.{list_all};
ghost use Rattle.job_steps.specs.JobFormat.{is_listed, is_job, pool, step_of, steps};
ghost use Rattle.job_steps.specs.JobCalls.{in_form, push_of, step_call};
ghost use Rattle.numbers.specs.Forms.{is_form};

use crate::read::{Parts, STEP_BYTES, Step, step_of, whole_parts};
use numbers::{formed, is_form};
use units::{AsmReference, MarkId, MarkReference, Span};

// The longest job.
pub const MAX_JOB: usize = 32768;

// The kinds of a step. That of a delta is 32 plus its form.
// Kept: numbers, since they are bytes of a job; `call_of` alone reads them, and makes an enum of them.
const MARK: u8 = 1;

const OP: u8 = 2;

const DATA: u8 = 3;

const DIRECT: u8 = 4;

const DELTA: u8 = 32;

// The call that a listed step is.
#[derive(Clone, Copy)]
pub(crate) enum Call<'a> {
    Mark(MarkId),
    OpByte(u8),
    Data(&'a [u8]),
    Reference(AsmReference),
}

// The call of a step with a listed kind and listed fields.
// Inlined where steps are tested too, so that nothing is made there of the call that the test doesn't ask for.
#[inline(always)]
pub(crate) fn call_of<'a>(step: Step, pool: &'a [u8]) -> Option<Call<'a>>
    ensures listed { is_some result ≡ is_listed (length pool.now) step }
    ensures call { IfSome result (λ call. push_of call ≡ step_call pool.now step) }
{
    let first = step.first;
    let second = step.second;
    match step.kind {
        MARK => (second == 0).then_some(Call::Mark(MarkId(first))),
        OP => (second == 0).then_some(Call::OpByte(u8::try_from(first).ok()?)),
        DATA => Some(Call::Data(pool.get(first as usize..second as usize)?)),
        DIRECT => reference(MarkReference::Direct(MarkId(first)), second),
        kind => {
            let span = Span {
                start: MarkId(first),
                end: MarkId(second),
            };
            reference(MarkReference::Delta(span), kind.checked_sub(DELTA)? as u32)
        }
    }
}

// A reference to these marks, if the form names one.
fn reference<'a>(mark_ref: MarkReference, form: u32) -> Option<Call<'a>>
    ensures listed { is_some result ≡ is_form form }
    ensures call { IfSome result (λ call. push_of call ≡ in_form mark_ref form) }
{
    if !is_form(form) {
        return None;
    }
    Some(Call::Reference(formed(mark_ref, form)))
}

// A step that is listed, with these pool bytes.
fn is_listed(bytes: &[u8; STEP_BYTES], pool: &[u8]) -> bool
    ensures { result ≡ is_listed (length pool.now) (step_of bytes.now) }
{
    call_of(step_of(bytes), pool).is_some()
}

// Every step is listed.
fn all_listed(steps: &[[u8; STEP_BYTES]], pool: &[u8]) -> bool
    ensures { result ≡ list_all (λ step. is_listed (length pool.now) (step_of step)) steps.now }
{
    steps.iter().all(|step| is_listed(step, pool))
}

// The parts of a job, and none of what is 15.
pub(crate) fn job_parts(job: &[u8]) -> Option<Parts<'_>>
    ensures job { is_some result ≡ is_job job.now }
    ensures parts { IfSome result (λ p. (p.pool.now ≡ pool job.now) × (map step_of p.steps.now ≡ steps job.now)) }
{
    if MAX_JOB < job.len() {
        return None;
    }
    let parts = whole_parts(job)?;
    if !all_listed(parts.steps, parts.pool) {
        return None;
    }
    Some(parts)
}
