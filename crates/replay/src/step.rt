// A step: a call and its arguments, made of nine bytes, a kind and two numbers (docs/REPLAY.md). A part, an index or a length is as the
// script gives it; whether the slice has it shows when the step is taken.
use numbers::form_of;
use records::Assembler;
use std::num::TryFromIntError;
use std::ops::Range;
use units::{AsmReference, MarkId, MarkReference, Span};

pub(crate) const STEP_BYTES: usize = 9;

// The first kind of a delta; the form is added to it.
// Kept: here and in the arms below kinds are numbers, since they are bytes of a script; this file alone reads them, and makes enums of them.
const DELTA: u8 = 32;

// A step that no call is made for: an unlisted kind or form, a value above its limit, an index or a part that its slice hasn't.
#[derive(Clone, Copy)]
pub(crate) struct BadStep;

impl From<TryFromIntError> for BadStep {
    fn from(_error: TryFromIntError) -> BadStep {
        BadStep
    }
}

// A building call. A part is of the pool.
#[derive(Drop)]
pub(crate) enum Call {
    Mark(MarkId),
    OpByte(u8),
    OpBytes(Range<usize>),
    Swap(u8),
    Dup(u8),
    Exchange(u8, u8),
    Data(Range<usize>),
    Reference(AsmReference),
    MinimalU256(Range<usize>),
    MinimalU64(u64),
    MinimalU32(u32),
    Clear,
}

#[derive(Drop)]
pub(crate) enum Step {
    StartAnew,
    Build(Call),
    Scan(Range<usize>),
    SetByte(usize, u8),
    SetWord(usize, u32),
    SetCounts(Assembler),
    SetOffset(usize, u32),
    Assemble(usize),
    List,
    Land { offset: usize, end: usize },
    Settle,
    ShowBytes(Range<usize>),
    ShowWords(Range<usize>),
    ShowTable(Range<usize>),
    ShowResult(Range<usize>),
    ShowText(Range<usize>),
    Write(usize),
    RunJob(Range<usize>),
}

impl TryFrom<[u8; STEP_BYTES]> for Step {
    type Error = BadStep;

    fn try_from(step: [u8; STEP_BYTES]) -> Result<Self, BadStep> {
        let [kind, a0, a1, a2, a3, b0, b1, b2, b3] = step;
        let a = u32::from_be_bytes([a0, a1, a2, a3]);
        let b = u32::from_be_bytes([b0, b1, b2, b3]);
        let index = a as usize;
        let part = index..b as usize;
        Ok(match kind {
            0 => Step::StartAnew,
            1..=12 => Step::Build(Call::of_kind(kind, a, b)?),
            13 => Step::Scan(part),
            16 => Step::SetByte(index, u8::try_from(b)?),
            17 => Step::SetWord(index, b),
            18 => Step::SetCounts(Assembler {
                bytes: a,
                sections: b,
            }),
            19 => Step::SetOffset(index, b),
            20 => Step::Assemble(index),
            21 => Step::List,
            22 => Step::Land {
                offset: index,
                end: b as usize,
            },
            23 => Step::Settle,
            24 => Step::ShowBytes(part),
            25 => Step::ShowWords(part),
            26 => Step::ShowTable(part),
            27 => Step::ShowResult(part),
            28 => Step::ShowText(part),
            29 => Step::Write(index),
            30 => Step::RunJob(part),
            DELTA.. => Step::Build(Call::delta(a, b, kind - DELTA)?),
            _ => return Err(BadStep),
        })
    }
}

impl Call {
    // The call of a kind below that of deltas.
    fn of_kind(kind: u8, a: u32, b: u32) -> Result<Self, BadStep> {
        let part = a as usize..b as usize;
        Ok(match kind {
            1 => Call::Mark(MarkId(a)),
            2 => Call::OpByte(u8::try_from(a)?),
            3 => Call::Data(part),
            4 => Call::Reference(formed(MarkReference::Direct(MarkId(a)), b)?),
            5 => Call::Swap(u8::try_from(a)?),
            6 => Call::Dup(u8::try_from(a)?),
            7 => Call::Exchange(u8::try_from(a)?, u8::try_from(b)?),
            8 => Call::MinimalU256(part),
            9 => Call::MinimalU64(u64::from(a) << 32 | u64::from(b)),
            10 => Call::MinimalU32(a),
            11 => Call::Clear,
            12 => Call::OpBytes(part),
            _ => return Err(BadStep),
        })
    }

    // A delta from mark a to mark b.
    fn delta(a: u32, b: u32, form: u8) -> Result<Self, BadStep> {
        let span = Span {
            start: MarkId(a),
            end: MarkId(b),
        };
        Ok(Call::Reference(formed(MarkReference::Delta(span), u32::from(form))?))
    }
}

// A reference in a form that is listed.
fn formed(mark_ref: MarkReference, form: u32) -> Result<AsmReference, BadStep> {
    let form = form_of(form).ok_or(BadStep)?;
    Ok(AsmReference {
        mark_ref,
        set_size: form.set_size,
        pushed: form.pushed,
    })
}
