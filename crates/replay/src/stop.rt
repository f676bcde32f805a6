// Why a step didn't print its own line: it is bad, its call was refused, or a write failed.
use crate::step::BadStep;
use std::{fmt, io};
use units::Refusal;

#[derive(Drop)]
pub(crate) enum Stop {
    BadStep,
    Refused(Refusal),
    Output(io::Error),
}

impl From<BadStep> for Stop {
    fn from(_step: BadStep) -> Stop {
        Stop::BadStep
    }
}

impl From<Refusal> for Stop {
    fn from(refusal: Refusal) -> Stop {
        Stop::Refused(refusal)
    }
}

impl From<io::Error> for Stop {
    fn from(error: io::Error) -> Stop {
        Stop::Output(error)
    }
}

// The line of a step that did nothing.
impl fmt::Display for Stop {
    fn fmt<W: fmt::Write>(&self, f: &mut fmt::Formatter<W>) -> fmt::Result {
        match self {
            Stop::BadStep => f.write_str("bad step"),
            Stop::Refused(refusal) => write!(
                f,
                "refused {} at {} passes {}",
                refusal.number(),
                refusal.section(),
                refusal.passes()
            ),
            Stop::Output(error) => write!(f, "{error}"),
        }
    }
}
