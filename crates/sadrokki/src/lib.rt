// The library for other languages: functions exported under their own names, on numbers and slices, and nothing else. Each answers one
// number and takes every argument: none has a `requires`. From C a slice is two arguments, a pointer and a length (tools/c/sadrokki.h).
//
// State: a store's two counts as one number, sections * 2^32 + stored bytes. Any number is taken: a state that no call answered is
// judged as its counts are. A building call's refusal or 255 given on as a state has a section count above the limit: `sadrokki_clear`
// answers the empty state, as to any; an empty run of op bytes answers it as it was, as any state; every other call refuses again, for its
// own arguments (1, 2, 3, 255) or else with 6 at section 0.
//
// Answer: number * 2^56 + mid * 2^32 + low.
//   number 0, accepted: a building call has mid = sections and low = stored bytes, so that its answer is the next state;
//     `sadrokki_assemble`, `sadrokki_settle` and `sadrokki_write` have mid = passes and low = the code's length; `sadrokki_write_asm` has
//     mid * 2^32 + low = the text's length; the others have low = their result.
//   number 1 to 14, a refusal of document 01, and 16 to 18, of document 02's requests 3 and 5: mid = passes, low = section.
//   number 255, an argument names nothing: mid = low = 0, and nothing changed.
// An empty run of op bytes is accepted and answers its state, whatever number that has.
// `sadrokki_lands`, `sadrokki_push_size`, `sadrokki_bytes_to_hold` and `sadrokki_leading_zeros` can't be refused and answer their result
// alone; the last has two results, the zero bytes and the bytes looked at, added: the second is the first or one more, so half of the
// answer, rounded down and rounded up, gives both.
//
// Form of a reference: set size (0 unsized, else 1 to 4) plus 8 if pushed. 0 to 4 and 8 to 12; any other names nothing.
// Kept: a state and an answer are one number, and slices travel apart: this is the C interface, of functions that each make one call.
#![tactic(auto)]

mod assemble;
mod build;
mod small;
