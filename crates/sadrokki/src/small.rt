// The small calls: landing, the opcodes, the sizes of references, and the scan for the first nonzero byte.
ghost use Rattle.std.specs.Prelude.{◌≡◌, ◌+◌, ◌/◌};
ghost use Rattle.units.specs.Numbers.{held_bytes};
ghost use Rattle.evm.specs.Landing.{landing_at};
ghost use Rattle.evm.specs.Opcodes.{op_push_size, immediate_bytes};
ghost use Rattle.opcodes.specs.Names.{op_name};
ghost use Rattle.numbers.specs.Forms.{form_of, size_for_number, least_size_number};
ghost use Rattle.minimal.specs.Zeros.{LeadingZeros, looked};
ghost use Rattle.facts.specs.Facts.{landing_number, name_number, name_array};

// Whether a jump may land: 1 yes, 0 no.
#[unsafe(no_mangle)]
pub extern "C" fn sadrokki_lands(code: &[u8], offset: usize) -> u32
    ensures { result ≡ landing_number (landing_at code.now offset) }
{
    facts::lands(code, offset)
}

// The name of an opcode into the array's first bytes: low = its length. 255 if the array has no room for it.
#[unsafe(no_mangle)]
pub extern "C" fn sadrokki_op_name(byte: u8, name: &mut [u8]) -> u64
    ensures answer { result ≡ name_number (op_name byte) name.old }
    ensures written { name.new ≡ name_array (op_name byte) name.old }
{
    facts::op_name(byte, name)
}

// The bytes of immediate after a push; 0 for what `op::push_size` calls no push.
#[unsafe(no_mangle)]
pub extern "C" fn sadrokki_push_size(byte: u8) -> u32
    ensures { result ≡ immediate_bytes (op_push_size byte) }
{
    facts::push_size(byte)
}

// The bytes that hold a value, 1 to 4.
#[unsafe(no_mangle)]
pub extern "C" fn sadrokki_bytes_to_hold(value: u32) -> u32
    ensures { result ≡ held_bytes value }
{
    facts::bytes_to_hold(value)
}

// `AsmReference::size_for`: low = bytes; 10 if the value is too wide for the form.
#[unsafe(no_mangle)]
pub extern "C" fn sadrokki_size_for(form: u32, value: u32) -> u64
    ensures { result ≡ size_for_number (form_of form) value }
{
    facts::size_for(form, value)
}

// `AsmReference::least_size`: low = bytes.
#[unsafe(no_mangle)]
pub extern "C" fn sadrokki_least_size(form: u32) -> u64
    ensures { result ≡ least_size_number (form_of form) }
{
    facts::least_size(form)
}

// The scan for the first nonzero byte: half of the answer, rounded down, is the zero bytes before it, and rounded up the bytes looked at.
#[unsafe(no_mangle)]
pub extern "C" fn sadrokki_leading_zeros(bytes: &[u8]) -> u64
    ensures zeros { LeadingZeros bytes.now (result / 2) }
    ensures looked { (result + 1) / 2 ≡ looked bytes.now }
{
    facts::leading_zeros(bytes)
}
