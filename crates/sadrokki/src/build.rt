// The building calls. Each answers the next state, or a refusal with nothing changed.
ghost use Rattle.std.specs.Prelude.{◌≡◌, []};
ghost use Rattle.units.specs.Reply.{accepted};
ghost use Rattle.records.specs.Store.{words_per_section, empty_counts};
ghost use Rattle.calls.specs.Calls.{push_mark, push_op_byte, push_swap, push_dup, push_exchange, push_data};
ghost use Rattle.calls.specs.Calls.{push_minimal_u256, push_minimal_u64, push_minimal_u32, push_reply, push_after};
ghost use Rattle.calls.specs.Calls.{push_op_bytes, clear, call_reply, call_after};
ghost use Rattle.numbers.specs.Numbers.{store_in, built_number};
ghost use Rattle.numbers.specs.Forms.{form_of, direct, delta, reference_number, reference_after};

// The empty state.
#[unsafe(no_mangle)]
pub extern "C" fn sadrokki_new() -> u64
    ensures { result ≡ built_number (accepted empty_counts) }
{
    building::new()
}

// The empty state again, from any state.
#[unsafe(no_mangle)]
pub extern "C" fn sadrokki_clear(state: u64) -> u64
    ensures { result ≡ built_number (call_reply words_per_section clear (store_in state [] [])) }
{
    building::clear(state)
}

// Adds a mark. Refusals: 3, 6, 5.
#[unsafe(no_mangle)]
pub extern "C" fn sadrokki_push_mark(state: u64, bytes: &[u8], words: &mut [u32], mark: u32) -> u64
    ensures reply { result ≡ built_number (push_reply words_per_section (push_mark mark)
        (store_in state bytes.now words.old)) }
    ensures words { words.new ≡ (push_after words_per_section (push_mark mark)
        (store_in state bytes.now words.old)).words }
{
    building::push_mark(state, bytes, words, mark)
}

// Adds an op byte. Refusals: 6, 4, 5.
#[unsafe(no_mangle)]
pub extern "C" fn sadrokki_push_op_byte(
    state: u64,
    bytes: &mut [u8],
    words: &mut [u32],
    byte: u8,
) -> u64
    ensures reply { result ≡ built_number (push_reply words_per_section (push_op_byte byte)
        (store_in state bytes.old words.old)) }
    ensures bytes { bytes.new ≡ (push_after words_per_section (push_op_byte byte)
        (store_in state bytes.old words.old)).bytes }
    ensures words { words.new ≡ (push_after words_per_section (push_op_byte byte)
        (store_in state bytes.old words.old)).words }
{
    building::push_op_byte(state, bytes, words, byte)
}

// Adds a run of op bytes, all or nothing: as `sadrokki_push_op_byte` of each in turn, and the first refusal is the run's. Refusals: 6;
// 4, no room for one byte; 5; 4, no room for all. An empty run answers the state that it was given, whatever it is.
#[unsafe(no_mangle)]
pub extern "C" fn sadrokki_push_op_bytes(
    state: u64,
    bytes: &mut [u8],
    words: &mut [u32],
    run: &[u8],
) -> u64
    ensures reply { result ≡ built_number (call_reply words_per_section (push_op_bytes run.now)
        (store_in state bytes.old words.old)) }
    ensures bytes { bytes.new ≡ (call_after words_per_section (push_op_bytes run.now)
        (store_in state bytes.old words.old)).bytes }
    ensures words { words.new ≡ (call_after words_per_section (push_op_bytes run.now)
        (store_in state bytes.old words.old)).words }
{
    building::push_op_bytes(state, bytes, words, run)
}

// Adds SWAP1 to SWAP16. Refusals: 1, 6, 4, 5.
#[unsafe(no_mangle)]
pub extern "C" fn sadrokki_push_swap(
    state: u64,
    bytes: &mut [u8],
    words: &mut [u32],
    depth: u8,
) -> u64
    ensures reply { result ≡ built_number (push_reply words_per_section (push_swap depth)
        (store_in state bytes.old words.old)) }
    ensures bytes { bytes.new ≡ (push_after words_per_section (push_swap depth)
        (store_in state bytes.old words.old)).bytes }
    ensures words { words.new ≡ (push_after words_per_section (push_swap depth)
        (store_in state bytes.old words.old)).words }
{
    building::push_swap(state, bytes, words, depth)
}

// Adds DUP1 to DUP16, for depth 0 to 15. Refusals: 1, 6, 4, 5.
#[unsafe(no_mangle)]
pub extern "C" fn sadrokki_push_dup(
    state: u64,
    bytes: &mut [u8],
    words: &mut [u32],
    depth: u8,
) -> u64
    ensures reply { result ≡ built_number (push_reply words_per_section (push_dup depth)
        (store_in state bytes.old words.old)) }
    ensures bytes { bytes.new ≡ (push_after words_per_section (push_dup depth)
        (store_in state bytes.old words.old)).bytes }
    ensures words { words.new ≡ (push_after words_per_section (push_dup depth)
        (store_in state bytes.old words.old)).words }
{
    building::push_dup(state, bytes, words, depth)
}

// Exchanges the items at depths n and m. Refusals: 1, 6, 4, 5.
#[unsafe(no_mangle)]
pub extern "C" fn sadrokki_push_exchange(
    state: u64,
    bytes: &mut [u8],
    words: &mut [u32],
    n: u8,
    m: u8,
) -> u64
    ensures reply { result ≡ built_number (push_reply words_per_section (push_exchange n m)
        (store_in state bytes.old words.old)) }
    ensures bytes { bytes.new ≡ (push_after words_per_section (push_exchange n m)
        (store_in state bytes.old words.old)).bytes }
    ensures words { words.new ≡ (push_after words_per_section (push_exchange n m)
        (store_in state bytes.old words.old)).words }
{
    building::push_exchange(state, bytes, words, n, m)
}

// Pushes a word of 32 bytes, highest first. Refusals: 2, 6, 4, 5.
#[unsafe(no_mangle)]
pub extern "C" fn sadrokki_push_minimal_u256(
    state: u64,
    bytes: &mut [u8],
    words: &mut [u32],
    word: &[u8],
) -> u64
    ensures reply { result ≡ built_number (push_reply words_per_section (push_minimal_u256 word.now)
        (store_in state bytes.old words.old)) }
    ensures bytes { bytes.new ≡ (push_after words_per_section (push_minimal_u256 word.now)
        (store_in state bytes.old words.old)).bytes }
    ensures words { words.new ≡ (push_after words_per_section (push_minimal_u256 word.now)
        (store_in state bytes.old words.old)).words }
{
    building::push_minimal_u256(state, bytes, words, word)
}

// Pushes a number. Refusals: 6, 4, 5.
#[unsafe(no_mangle)]
pub extern "C" fn sadrokki_push_minimal_u64(
    state: u64,
    bytes: &mut [u8],
    words: &mut [u32],
    value: u64,
) -> u64
    ensures reply { result ≡ built_number (push_reply words_per_section (push_minimal_u64 value)
        (store_in state bytes.old words.old)) }
    ensures bytes { bytes.new ≡ (push_after words_per_section (push_minimal_u64 value)
        (store_in state bytes.old words.old)).bytes }
    ensures words { words.new ≡ (push_after words_per_section (push_minimal_u64 value)
        (store_in state bytes.old words.old)).words }
{
    building::push_minimal_u64(state, bytes, words, value)
}

// Pushes a number. Refusals: 6, 4, 5.
#[unsafe(no_mangle)]
pub extern "C" fn sadrokki_push_minimal_u32(
    state: u64,
    bytes: &mut [u8],
    words: &mut [u32],
    value: u32,
) -> u64
    ensures reply { result ≡ built_number (push_reply words_per_section (push_minimal_u32 value)
        (store_in state bytes.old words.old)) }
    ensures bytes { bytes.new ≡ (push_after words_per_section (push_minimal_u32 value)
        (store_in state bytes.old words.old)).bytes }
    ensures words { words.new ≡ (push_after words_per_section (push_minimal_u32 value)
        (store_in state bytes.old words.old)).words }
{
    building::push_minimal_u32(state, bytes, words, value)
}

// Adds data. Refusals: 6, 4, 5.
#[unsafe(no_mangle)]
pub extern "C" fn sadrokki_push_data(
    state: u64,
    bytes: &mut [u8],
    words: &mut [u32],
    data: &[u8],
) -> u64
    ensures reply { result ≡ built_number (push_reply words_per_section (push_data «data».now)
        (store_in state bytes.old words.old)) }
    ensures bytes { bytes.new ≡ (push_after words_per_section (push_data «data».now)
        (store_in state bytes.old words.old)).bytes }
    ensures words { words.new ≡ (push_after words_per_section (push_data «data».now)
        (store_in state bytes.old words.old)).words }
{
    building::push_data(state, bytes, words, data)
}

// Adds a reference to a mark's offset, in a form. Refusals: 255, 3, 6, 5.
#[unsafe(no_mangle)]
pub extern "C" fn sadrokki_push_direct(
    state: u64,
    bytes: &[u8],
    words: &mut [u32],
    mark: u32,
    form: u32,
) -> u64
    ensures reply { result ≡ reference_number words_per_section (direct mark) (form_of form)
        (store_in state bytes.now words.old) }
    ensures words { words.new ≡ reference_after words_per_section (direct mark) (form_of form)
        (store_in state bytes.now words.old) }
{
    building::push_direct(state, bytes, words, mark, form)
}

// Adds a reference to end's offset minus start's, in a form. Refusals: 255, 3, 6, 5.
#[unsafe(no_mangle)]
pub extern "C" fn sadrokki_push_delta(
    state: u64,
    bytes: &[u8],
    words: &mut [u32],
    start: u32,
    end: u32,
    form: u32,
) -> u64
    ensures reply { result ≡ reference_number words_per_section (delta start «end») (form_of form)
        (store_in state bytes.now words.old) }
    ensures words { words.new ≡ reference_after words_per_section (delta start «end») (form_of form)
        (store_in state bytes.now words.old) }
{
    building::push_delta(state, bytes, words, start, end, form)
}
