// How counts, answers and forms are one number each. Every function is total: it takes any number.
// Kept: functions in place of `From`, since docs/CLAIMS.md names them; and but for `form_of` neither type of any is this crate's.
#![tactic(auto)]

mod form;

ghost use Rattle.std.specs.Prelude.{◌≡◌};
ghost use Rattle.numbers.specs.Numbers.{counts_in, state_number, refusal_number};

pub use form::{Form, delta_kind, form_of, formed, is_form};
use records::Assembler;
use units::Refusal;

// One section more, as a state.
pub const SECTION: u64 = 0x1_0000_0000;

// One more in the number of an answer.
pub const NUMBER: u64 = 0x100_0000_0000_0000;

// The answer to an argument that names nothing.
pub const NAMES_NOTHING: u64 = 0xff00_0000_0000_0000;

// The counts that a state is.
pub fn counts_in(state: u64) -> Assembler
    ensures { result ≡ counts_in state }
{
    Assembler {
        bytes: (state % SECTION) as u32,
        sections: (state / SECTION) as u32,
    }
}

// The state that counts are.
pub fn state_of(counts: Assembler) -> u64
    ensures { result ≡ state_number counts }
{
    (counts.sections as u64) * SECTION + (counts.bytes as u64)
}

// A refusal.
pub fn refusal_number(refusal: Refusal) -> u64
    ensures { result ≡ refusal_number refusal }
{
    let passes = refusal.passes() % 0x100_0000;
    (refusal.number() as u64) * NUMBER + (passes as u64) * SECTION + (refusal.section() as u64)
}
