// The small calls, by number: landing, the opcodes, the sizes of references by their form, and the scan for the first nonzero byte. Every
// function takes every argument.
// Kept: each answer is one number, since C has it so (sadrokki).
#![tactic(auto)]

ghost use Rattle.std.specs.Prelude.{◌≡◌, ◌+◌, ◌/◌};
ghost use Rattle.units.specs.Numbers.{held_bytes};
ghost use Rattle.evm.specs.Landing.{landing_at};
ghost use Rattle.evm.specs.Opcodes.{op_push_size, immediate_bytes};
ghost use Rattle.opcodes.specs.Names.{op_name};
ghost use Rattle.units.specs.Replies.{too_narrow};
ghost use Rattle.numbers.specs.Numbers.{packed};
ghost use Rattle.numbers.specs.Forms.{form_of, direct, formed, size_for_number, least_size_number};
ghost use Rattle.minimal.specs.Zeros.{LeadingZeros, looked};
ghost use Rattle.facts.specs.Facts.{landing_number, name_number, name_array};

use evm::landing::Landing;
use numbers::{Form, NAMES_NOTHING, form_of, refusal_number};
use units::{AsmReference, MarkId, MarkReference, Refusal};

// Whether a jump may land: 1 yes, 0 no.
pub fn lands(code: &[u8], offset: usize) -> u32
    ensures { result ≡ landing_number (landing_at code.now offset) }
{
    u32::from(evm::landing::lands(code, offset) == Landing::Yes)
}

// The name of an opcode into the array's first bytes: low = its length. 255 if the array has no room for it.
pub fn op_name(byte: u8, name: &mut [u8]) -> u64
    ensures answer { result ≡ name_number (op_name byte) name.old }
    ensures written { name.new ≡ name_array (op_name byte) name.old }
{
    let letters = opcodes::name(byte).as_bytes();
    if name.len() < letters.len() {
        return NAMES_NOTHING;
    }
    slices::write_bytes(name, 0, letters);
    letters.len() as u64
}

// The bytes of immediate after a push; 0 for what `op::push_size` calls no push.
pub fn push_size(byte: u8) -> u32
    ensures { result ≡ immediate_bytes (op_push_size byte) }
{
    evm::op::push_size(byte).map_or(0, u32::from)
}

// The bytes that hold a value, 1 to 4.
pub fn bytes_to_hold(value: u32) -> u32
    ensures { result ≡ held_bytes value }
{
    units::bytes_to_hold(value).bytes()
}

// `AsmReference::size_for`: low = bytes; 10 if the value is too wide for the form; 255 if it names nothing.
pub fn size_for(form: u32, value: u32) -> u64
    ensures { result ≡ size_for_number (form_of form) value }
{
    let Some(form) = form_of(form) else {
        return NAMES_NOTHING;
    };
    any_mark(form)
        .size_for(value)
        .map_or(too_narrow(), u64::from)
}

// `AsmReference::least_size`: low = bytes; 255 if the form names nothing.
pub fn least_size(form: u32) -> u64
    ensures { result ≡ least_size_number (form_of form) }
{
    let Some(form) = form_of(form) else {
        return NAMES_NOTHING;
    };
    u64::from(any_mark(form).least_size())
}

// The scan for the first nonzero byte: the zero bytes before it and the bytes looked at, added. The second is the first or one more, so half
// of the answer, rounded down, is the zeros, and rounded up the bytes looked at.
pub fn leading_zeros(bytes: &[u8]) -> u64
    ensures zeros { LeadingZeros bytes.now (result / 2) }
    ensures looked { (result + 1) / 2 ≡ looked bytes.now }
{
    let scan = minimal::leading_zeros(bytes);
    (scan.zeros + scan.looked) as u64
}

// The value is too wide.
fn too_narrow() -> u64
    ensures { result ≡ packed too_narrow 0 0 }
{
    refusal_number(Refusal::TooNarrow {
        section: 0,
        passes: 0,
    })
}

// A reference of these sizes, which no mark enters.
fn any_mark(form: Form) -> AsmReference
    ensures { result ≡ formed (direct 0) form.set_size form.pushed }
{
    AsmReference {
        mark_ref: MarkReference::Direct(MarkId(0)),
        set_size: form.set_size,
        pushed: form.pushed,
    }
}
