// The calls that add op bytes or data.
ghost use Rattle.std.specs.Prelude.{◌≡◌, [], ◌∷◌, ◌≤◌};
ghost use Rattle.evm.specs.Opcodes.{swap_op};
ghost use Rattle.records.specs.Store.{words_per_section};
ghost use Rattle.records.specs.Sections.{ops};
ghost use Rattle.calls.specs.Calls.{push_op_byte, push_swap, push_dup, push_exchange, push_data, has_bad_depth, add_reply, add_after};
ghost use Rattle.calls.specs.Calls.{push_reply, push_after, push_op_bytes, call_reply, call_after};
ghost use Rattle.numbers.specs.Numbers.{store_in, built_number};

use adding::{BytesKind, add_bytes, add_run};
use numbers::refusal_number;
use units::Refusal;

// The deepest SWAP.
const MAX_SWAP: u8 = 16;

// The deepest DUP: DUP1 is depth 0.
const MAX_DUP: u8 = 15;

// Adds an op byte. Refusals: 6, 4, 5.
pub fn push_op_byte(state: u64, bytes: &mut [u8], words: &mut [u32], byte: u8) -> u64
    ensures reply { result ≡ built_number (push_reply words_per_section (push_op_byte byte)
        (store_in state bytes.old words.old)) }
    ensures bytes { bytes.new ≡ (push_after words_per_section (push_op_byte byte)
        (store_in state bytes.old words.old)).bytes }
    ensures words { words.new ≡ (push_after words_per_section (push_op_byte byte)
        (store_in state bytes.old words.old)).words }
{
    push_op(state, bytes, words, byte)
}

// Adds a run of op bytes, all or nothing: as `push_op_byte` of each in turn, and the first refusal is the run's. Refusals: 6; 4, no room
// for one byte; 5; 4, no room for all. An empty run answers the state that it was given, whatever it is.
pub fn push_op_bytes(state: u64, bytes: &mut [u8], words: &mut [u32], run: &[u8]) -> u64
    ensures reply { result ≡ built_number (call_reply words_per_section (push_op_bytes run.now)
        (store_in state bytes.old words.old)) }
    ensures bytes { bytes.new ≡ (call_after words_per_section (push_op_bytes run.now)
        (store_in state bytes.old words.old)).bytes }
    ensures words { words.new ≡ (call_after words_per_section (push_op_bytes run.now)
        (store_in state bytes.old words.old)).words }
{
    if run.len() == 0 {
        return state;
    }
    if let Some(next) = short::extend_ops(state, bytes, words, run) {
        return next;
    }
    if let Some(next) = short::begin_ops(state, bytes, words, run) {
        return next;
    }
    add_run(state, bytes, words, run)
}

// Adds SWAP1 to SWAP16. Refusals: 1 (0 or above 16), 6, 4, 5.
pub fn push_swap(state: u64, bytes: &mut [u8], words: &mut [u32], depth: u8) -> u64
    ensures reply { result ≡ built_number (push_reply words_per_section (push_swap depth)
        (store_in state bytes.old words.old)) }
    ensures bytes { bytes.new ≡ (push_after words_per_section (push_swap depth)
        (store_in state bytes.old words.old)).bytes }
    ensures words { words.new ≡ (push_after words_per_section (push_swap depth)
        (store_in state bytes.old words.old)).words }
{
    if is_bad_swap(depth) {
        return refusal_number(Refusal::BadDepth);
    }
    push_op(state, bytes, words, swap_op(depth))
}

// Adds DUP1 to DUP16, for depth 0 to 15. Refusals: 1 (above 15), 6, 4, 5.
pub fn push_dup(state: u64, bytes: &mut [u8], words: &mut [u32], depth: u8) -> u64
    ensures reply { result ≡ built_number (push_reply words_per_section (push_dup depth)
        (store_in state bytes.old words.old)) }
    ensures bytes { bytes.new ≡ (push_after words_per_section (push_dup depth)
        (store_in state bytes.old words.old)).bytes }
    ensures words { words.new ≡ (push_after words_per_section (push_dup depth)
        (store_in state bytes.old words.old)).words }
{
    if MAX_DUP < depth {
        return refusal_number(Refusal::BadDepth);
    }
    push_op(state, bytes, words, evm::op::DUP1 + depth)
}

// Exchanges the items at depths n and m: one SWAP of the other where one is 0, else SWAP n, m, n.
// Refusals: 1 (equal, or either above 16), 6, 4, 5.
pub fn push_exchange(state: u64, bytes: &mut [u8], words: &mut [u32], n: u8, m: u8) -> u64
    ensures reply { result ≡ built_number (push_reply words_per_section (push_exchange n m)
        (store_in state bytes.old words.old)) }
    ensures bytes { bytes.new ≡ (push_after words_per_section (push_exchange n m)
        (store_in state bytes.old words.old)).bytes }
    ensures words { words.new ≡ (push_after words_per_section (push_exchange n m)
        (store_in state bytes.old words.old)).words }
{
    if is_bad_exchange(n, m) {
        return refusal_number(Refusal::BadDepth);
    }
    if n == 0 {
        return begin_op(state, bytes, words, swap_op(m));
    }
    if m == 0 {
        return begin_op(state, bytes, words, swap_op(n));
    }
    let first = swap_op(n);
    let second = swap_op(m);
    let ops = [first, second, first];
    if let Some(next) = short::extend_ops(state, bytes, words, &ops) {
        return next;
    }
    // Made anew: lent twice, one array would lie in memory on the short way.
    let again = [first, second, first];
    add_bytes(state, bytes, words, BytesKind::Ops, &again)
}

// Adds data; empty data adds an empty Data section unless the last section is Data. Refusals: 6, 4, 5.
pub fn push_data(state: u64, bytes: &mut [u8], words: &mut [u32], data: &[u8]) -> u64
    ensures reply { result ≡ built_number (push_reply words_per_section (push_data «data».now)
        (store_in state bytes.old words.old)) }
    ensures bytes { bytes.new ≡ (push_after words_per_section (push_data «data».now)
        (store_in state bytes.old words.old)).bytes }
    ensures words { words.new ≡ (push_after words_per_section (push_data «data».now)
        (store_in state bytes.old words.old)).words }
{
    if let Some(next) = short::extend_data(state, bytes, words, data) {
        return next;
    }
    // Taken anew: lent on as it is, the slice would go by way of memory on the short way too.
    add_bytes(state, bytes, words, BytesKind::Data, &data[..])
}

// Adds an op byte: at once where it extends a last Ops section.
fn push_op(state: u64, bytes: &mut [u8], words: &mut [u32], op: u8) -> u64
    ensures reply { result ≡ built_number (add_reply words_per_section (ops (op ∷ []))
        (store_in state bytes.old words.old)) }
    ensures bytes { bytes.new ≡ (add_after words_per_section (ops (op ∷ []))
        (store_in state bytes.old words.old)).bytes }
    ensures words { words.new ≡ (add_after words_per_section (ops (op ∷ []))
        (store_in state bytes.old words.old)).words }
{
    if let Some(next) = short::extend_op(state, bytes, words, op) {
        return next;
    }
    begin_op(state, bytes, words, op)
}

// Adds an op byte that extends no section at once. With several callers it stays a function of its own: inlined into them, it gives
// their short way a stack frame.
fn begin_op(state: u64, bytes: &mut [u8], words: &mut [u32], op: u8) -> u64
    ensures reply { result ≡ built_number (add_reply words_per_section (ops (op ∷ []))
        (store_in state bytes.old words.old)) }
    ensures bytes { bytes.new ≡ (add_after words_per_section (ops (op ∷ []))
        (store_in state bytes.old words.old)).bytes }
    ensures words { words.new ≡ (add_after words_per_section (ops (op ∷ []))
        (store_in state bytes.old words.old)).words }
{
    if let Some(next) = short::begin_op(state, bytes, words, op) {
        return next;
    }
    let ops = [op];
    add_bytes(state, bytes, words, BytesKind::Ops, &ops)
}

// 1: no depth of a SWAP.
fn is_bad_swap(depth: u8) -> bool
    ensures { result ≡ has_bad_depth (push_swap depth) }
{
    if depth == 0 {
        return true;
    }
    MAX_SWAP < depth
}

// 1: no two depths to exchange.
fn is_bad_exchange(n: u8, m: u8) -> bool
    ensures { result ≡ has_bad_depth (push_exchange n m) }
{
    if n == m {
        return true;
    }
    if MAX_SWAP < n {
        return true;
    }
    MAX_SWAP < m
}

// SWAP1 for depth 1, up to SWAP16.
fn swap_op(depth: u8) -> u8
    requires { (1 ≤ depth) × (depth ≤ 16) }
    ensures { result ≡ swap_op depth }
{
    evm::op::SWAP1 + (depth - 1)
}
