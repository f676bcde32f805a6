// Document 01, module 2: the minimal pushes by number: PUSH0 for 0, else the least PUSH1 to PUSH32 with its bytes, highest first.
// Each answers the next state, or a refusal with nothing changed.
// Kept: a state and an answer are one number, since C has it so and numbers stay in registers (building, docs/PLAN.md, "Tried").
// Kept: digits and their zeros travel apart, since `add_scanned` isn't inlined and a struct would go by way of memory (docs/PLAN.md, "Tried").
#![tactic(auto)]

ghost use Rattle.std.specs.Prelude.{◌≡◌, ◌∷◌, ◌+◌, ◌-◌, ◌≤◌, length, take, drop, true};
ghost use Rattle.units.specs.Numbers.{number};
ghost use Rattle.evm.specs.Opcodes.{push_op};
ghost use Rattle.records.specs.Store.{words_per_section};
ghost use Rattle.records.specs.Sections.{ops};
ghost use Rattle.calls.specs.Calls.{minimal_push, push_minimal_u256, push_minimal_u64, push_minimal_u32, add_reply, add_after};
ghost use Rattle.calls.specs.Calls.{push_reply, push_after};
ghost use Rattle.numbers.specs.Numbers.{store_in, built_number};
ghost use Rattle.short.specs.Tried.{TriedSection};
ghost use Rattle.minimal.specs.Zeros.{LeadingZeros, looked};
ghost use Rattle.minimal.specs.Groups.{ZerosFrom};

use adding::{BytesKind, add_bytes};
use numbers::refusal_number;
use slices::write_bytes;
use units::Refusal;

// The bytes of a word.
const WORD: usize = 32;

// What a scan for the first nonzero byte answers: the zero bytes before it, and the bytes looked at.
#[derive(Clone, Copy)]
pub struct Scan {
    pub zeros: usize,
    pub looked: usize,
}

// Pushes a word of 32 bytes, highest first. Refusals: 2 (not 32 bytes), 6, 4, 5.
pub fn push_minimal_u256(state: u64, bytes: &mut [u8], words: &mut [u32], word: &[u8]) -> u64
    ensures reply { result ≡ built_number (push_reply words_per_section (push_minimal_u256 word.now)
        (store_in state bytes.old words.old)) }
    ensures bytes { bytes.new ≡ (push_after words_per_section (push_minimal_u256 word.now)
        (store_in state bytes.old words.old)).bytes }
    ensures words { words.new ≡ (push_after words_per_section (push_minimal_u256 word.now)
        (store_in state bytes.old words.old)).words }
{
    if word.len() != WORD {
        return refusal_number(Refusal::BadWord);
    }
    add_push(state, bytes, words, word)
}

// Pushes a number. Refusals: 6, 4, 5.
pub fn push_minimal_u64(state: u64, bytes: &mut [u8], words: &mut [u32], value: u64) -> u64
    ensures reply { result ≡ built_number (push_reply words_per_section (push_minimal_u64 value)
        (store_in state bytes.old words.old)) }
    ensures bytes { bytes.new ≡ (push_after words_per_section (push_minimal_u64 value)
        (store_in state bytes.old words.old)).bytes }
    ensures words { words.new ≡ (push_after words_per_section (push_minimal_u64 value)
        (store_in state bytes.old words.old)).words }
{
    push_number(state, bytes, words, value)
}

// Pushes a number. Refusals: 6, 4, 5.
pub fn push_minimal_u32(state: u64, bytes: &mut [u8], words: &mut [u32], value: u32) -> u64
    ensures reply { result ≡ built_number (push_reply words_per_section (push_minimal_u32 value)
        (store_in state bytes.old words.old)) }
    ensures bytes { bytes.new ≡ (push_after words_per_section (push_minimal_u32 value)
        (store_in state bytes.old words.old)).bytes }
    ensures words { words.new ≡ (push_after words_per_section (push_minimal_u32 value)
        (store_in state bytes.old words.old)).words }
{
    push_number(state, bytes, words, value as u64)
}

// Adds the minimal push of a number: at once where it extends a last Ops section, else by the scan.
fn push_number(state: u64, bytes: &mut [u8], words: &mut [u32], value: u64) -> u64
    ensures reply { result ≡ built_number (add_reply words_per_section (ops (minimal_push value))
        (store_in state bytes.old words.old)) }
    ensures bytes { bytes.new ≡ (add_after words_per_section (ops (minimal_push value))
        (store_in state bytes.old words.old)).bytes }
    ensures words { words.new ≡ (add_after words_per_section (ops (minimal_push value))
        (store_in state bytes.old words.old)).words }
{
    if let Some(next) = short::extend_push(state, bytes, words, value) {
        return next;
    }
    add_number(state, bytes, words, value)
}

// The same by the scan, of a number that the short way left, which asks for nine free bytes.
fn add_number(state: u64, bytes: &mut [u8], words: &mut [u32], value: u64) -> u64
    ensures reply { result ≡ built_number (add_reply words_per_section (ops (minimal_push value))
        (store_in state bytes.old words.old)) }
    ensures bytes { bytes.new ≡ (add_after words_per_section (ops (minimal_push value))
        (store_in state bytes.old words.old)).bytes }
    ensures words { words.new ≡ (add_after words_per_section (ops (minimal_push value))
        (store_in state bytes.old words.old)).words }
{
    let digits = value.to_be_bytes();
    let zeros = leading_zeros(&digits).zeros;
    add_scanned(state, bytes, words, &digits, zeros)
}

// Adds the minimal push of a number of at most 32 bytes, highest first, by the scan. One byte and none are tried here, with counts that the
// compiler knows; the rest is `add_scanned`, too large to be inlined.
fn add_push(state: u64, bytes: &mut [u8], words: &mut [u32], digits: &[u8]) -> u64
    requires { length digits.now ≤ 32 }
    ensures reply { result ≡ built_number (add_reply words_per_section (ops (minimal_push (number digits.now)))
        (store_in state bytes.old words.old)) }
    ensures bytes { bytes.new ≡ (add_after words_per_section (ops (minimal_push (number digits.now)))
        (store_in state bytes.old words.old)).bytes }
    ensures words { words.new ≡ (add_after words_per_section (ops (minimal_push (number digits.now)))
        (store_in state bytes.old words.old)).words }
{
    let zeros = leading_zeros(digits).zeros;
    if let Some(next) = extend_shortest(state, bytes, words, digits, zeros) {
        return next;
    }
    // Taken anew: lent on as it is, the slice would be copied into memory on the short ways too.
    add_scanned(state, bytes, words, &digits[..], zeros)
}

// The push of one byte or of none, where it extends a last Ops section.
fn extend_shortest(
    state: u64,
    bytes: &mut [u8],
    words: &mut [u32],
    digits: &[u8],
    zeros: usize,
) -> Option<u64>
    requires digits_len_bound { length digits.now ≤ 32 }
    requires leading_zeros { LeadingZeros digits.now zeros }
    ensures { TriedSection (ops (minimal_push (number digits.now))) (store_in state bytes.old words.old) result
        bytes.new words.new }
{
    match digits.len() - zeros {
        0 => short::extend_op(state, bytes, words, evm::op::PUSH0),
        1 => short::extend_instruction(state, bytes, words, evm::op::PUSH0 + 1, &digits[zeros..]),
        _ => None,
    }
}

// The push after the scan: at once where it extends a last Ops section, else judged.
fn add_scanned(state: u64, bytes: &mut [u8], words: &mut [u32], digits: &[u8], zeros: usize) -> u64
    requires digits_len_bound { length digits.now ≤ 32 }
    requires leading_zeros { LeadingZeros digits.now zeros }
    ensures reply { result ≡ built_number (add_reply words_per_section (ops (minimal_push (number digits.now)))
        (store_in state bytes.old words.old)) }
    ensures bytes { bytes.new ≡ (add_after words_per_section (ops (minimal_push (number digits.now)))
        (store_in state bytes.old words.old)).bytes }
    ensures words { words.new ≡ (add_after words_per_section (ops (minimal_push (number digits.now)))
        (store_in state bytes.old words.old)).words }
{
    let op = evm::op::PUSH0 + ((digits.len() - zeros) as u8);
    if let Some(next) = short::extend_instruction(state, bytes, words, op, &digits[zeros..]) {
        return next;
    }
    let push = push_bytes(digits, zeros);
    let end = digits.len() + 1;
    add_bytes(state, bytes, words, BytesKind::Ops, &push[zeros..end])
}

// How many zero bytes a number begins with, and how many bytes it looked at: up to and with the first nonzero one, where the scan ends.
// Takes every slice. Zeros are passed over in groups: eight bytes in one comparison and, where eight are left, the seven before the last
// in three. Every byte of a group passed over is counted. A group with another byte in it, and what fills no group, is read byte by byte,
// with the counter beside the read. So a comparison may touch up to seven bytes behind the first nonzero one, which aren't counted
// (DECISIONS 77). After the seven the last byte alone is left: that call stands apart, so that the compiler makes one read of it, no loop.
pub fn leading_zeros(digits: &[u8]) -> Scan
    ensures zeros { LeadingZeros digits.now result.zeros }
    ensures looked { result.looked ≡ looked digits.now }
{
    let passed = eights_passed(digits);
    if begins_with_seven(&digits[passed..]) {
        return scan_from(digits, passed + 7);
    }
    scan_from(digits, passed)
}

// The scan from a place on, after zeros that were looked at.
fn scan_from(digits: &[u8], passed: usize) -> Scan
    requires { (passed ≤ length digits.now) × ZerosFrom digits.now 0 passed }
    ensures { LeadingZeros digits.now result.zeros × (result.looked ≡ looked digits.now) }
{
    let mut looked = passed;
    for i in passed..digits.len() {
        let byte = digits[i];
        looked += 1;
        if byte != 0 {
            return Scan { zeros: i, looked };
        }
    }
    Scan {
        zeros: digits.len(),
        looked,
    }
}

// The zeros passed over eight at a time, while more than eight bytes are left.
fn eights_passed(digits: &[u8]) -> usize
    ensures { (result ≤ length digits.now) × ZerosFrom digits.now 0 result }
{
    let Some((_last, front)) = digits.split_last() else {
        return 0;
    };
    let (eights, _rest) = front.as_chunks::<8>();
    for (i, eight) in eights.iter().enumerate() {
        if u64::from_be_bytes(*eight) != 0 {
            return 8 * i;
        }
    }
    8 * eights.len()
}

// True only of eight bytes of which the first seven are zeros: four, two and one, a comparison each.
fn begins_with_seven(digits: &[u8]) -> bool
    ensures { result ≡ true → (length digits.now ≡ 8) × ZerosFrom digits.now 0 7 }
{
    let [a, b, c, d, e, f, g, _last] = digits else {
        return false;
    };
    if u32::from_be_bytes([*a, *b, *c, *d]) != 0 {
        return false;
    }
    if u16::from_be_bytes([*e, *f]) != 0 {
        return false;
    }
    *g == 0
}

// A number after one byte more, with the opcode in the place before the bytes that it pushes.
fn push_bytes(digits: &[u8], zeros: usize) -> [u8; 33]
    requires { (length digits.now ≤ 32) × (zeros ≤ length digits.now) }
    ensures { (length result ≡ 33) × (take (length digits.now + 1 - zeros) (drop zeros result)
        ≡ push_op (length digits.now - zeros) ∷ drop zeros digits.now) }
{
    let mut push = [0u8; 33];
    write_bytes(&mut push, 1, digits);
    push[zeros] = evm::op::PUSH0 + ((digits.len() - zeros) as u8);
    push
}
