// Document 01, module 2: the building calls by number. Each takes the state's number and is lent the byte slice and the slice of words.
// It answers the next state, or a refusal with nothing changed. A call judges its own numbers (1, 2, 3), tries the short way, and has
// every other case judged by `adding` (6, 4, 5; of a run of op bytes byte by byte).
// Kept: a state and an answer are one number, and state and slices travel apart: C has it so (`sadrokki_push_mark` and the others), and a struct handed to a function that isn't inlined costs some 15 cycles (docs/PLAN.md, "Tried").
#![tactic(auto)]

mod bytes;
mod section;

ghost use Rattle.std.specs.Prelude.{◌≡◌, []};
ghost use Rattle.units.specs.Reply.{accepted};
ghost use Rattle.records.specs.Store.{words_per_section, empty_counts};
ghost use Rattle.calls.specs.Calls.{clear, call_reply};
ghost use Rattle.numbers.specs.Numbers.{store_in, built_number};

pub use bytes::{push_data, push_dup, push_exchange, push_op_byte, push_op_bytes, push_swap};
pub use minimal::{push_minimal_u32, push_minimal_u64, push_minimal_u256};
use numbers::{counts_in, state_of};
use records::Assembler;
pub use section::{push_delta, push_direct, push_mark, push_reference};

// The empty state.
pub fn new() -> u64
    ensures { result ≡ built_number (accepted empty_counts) }
{
    state_of(Assembler::new())
}

// The empty state again, from any state.
pub fn clear(state: u64) -> u64
    ensures { result ≡ built_number (call_reply words_per_section clear (store_in state [] [])) }
{
    state_of(counts_in(state).clear())
}
