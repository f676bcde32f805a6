// Document 01, module 6: landing, in a place of its own.
ghost use Rattle.std.specs.Prelude.{◌≡◌};
ghost use Rattle.evm.specs.Landing.{landing_at};

use crate::op;

// Whether a jump may land.
// Kept: an enum of two names, since the definition `landing_at` answers it; neither stands for a missing value.
#[derive(Clone, Copy, Debug, PartialEq, Eq)]
pub enum Landing {
    Yes,
    No,
}

// Yes exactly if the offset is inside the code and the byte there is JUMPDEST. Refuses nothing.
#[tactic(auto, using(crate::proofs::Lands::outside, crate::proofs::Lands::at_jumpdest, crate::proofs::Lands::at_other))]
pub fn lands(code: &[u8], offset: usize) -> Landing
    ensures { result ≡ landing_at code.now offset }
{
    if code.len() <= offset {
        return Landing::No;
    }
    if code[offset] == op::JUMPDEST {
        Landing::Yes
    } else {
        Landing::No
    }
}
