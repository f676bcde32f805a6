// Settling, the write, assembly and the listing.
ghost use Rattle.std.specs.Prelude.{◌≡◌, length};
ghost use Rattle.records.specs.Store.{words_per_section};
ghost use Rattle.settling.specs.Settle.{settling};
ghost use Rattle.settling.specs.SettlingShortest.{SettlesDemand3};
ghost use Rattle.settling.specs.TightSettling.{SettlesWithin, SettlesLeast};
ghost use Rattle.assembler.specs.Assemble.{assembly};
ghost use Rattle.assembler.specs.Demand3.{Demand3};
ghost use Rattle.assembler.specs.Instructions.{CodePushes};
ghost use Rattle.assembler.specs.TightAssembly.{AssemblesWithin, AssemblesLeast, WritesWithin, WritesLeast};
ghost use Rattle.assembler.specs.Write.{write_by};
ghost use Rattle.assembler.specs.Pair.{WritesDemand3, WritesEnough};
ghost use Rattle.listing.specs.Answer.{listing_reply, listing_buffer};
ghost use Rattle.numbers.specs.Numbers.{store_in};
ghost use Rattle.answers.specs.Numbers.{assembled_number, listed_number};

// Writes the code into the result from the position on, and the marks' offsets into the table. Refusals: 6, 7, 8 (or 17, 18), 9 to
// 13, with the table all 0 and the result unchanged.
#[unsafe(no_mangle)]
pub extern "C" fn sadrokki_assemble(
    state: u64,
    bytes: &[u8],
    words: &[u32],
    table: &mut [u32],
    res: &mut [u8],
    position: usize,
) -> u64
    ensures reply { result ≡ assembled_number (assembly words_per_section (store_in state bytes.now words.now)
        (length table.old) res.old position).reply }
    ensures table { table.new ≡ (assembly words_per_section (store_in state bytes.now words.now)
        (length table.old) res.old position).table }
    ensures res { res.new ≡ (assembly words_per_section (store_in state bytes.now words.now)
        (length table.old) res.old position).result }
    ensures shortest { Demand3 words_per_section (store_in state bytes.now words.now)
        (length table.old) res.old position
        (assembly words_per_section (store_in state bytes.now words.now)
        (length table.old) res.old position).reply
        table.new res.new }
    ensures pushes { CodePushes words_per_section (store_in state bytes.now words.now) position
        (assembly words_per_section (store_in state bytes.now words.now)
        (length table.old) res.old position).reply
        table.new res.new }
    ensures within { AssemblesWithin words_per_section (store_in state bytes.now words.now)
        (length table.old) res.old position
        (assembly words_per_section (store_in state bytes.now words.now)
        (length table.old) res.old position).reply }
    ensures least { AssemblesLeast words_per_section (store_in state bytes.now words.now)
        (assembly words_per_section (store_in state bytes.now words.now)
        (length table.old) res.old position).reply
        table.new }
{
    answers::assemble(state, bytes, words, table, res, position)
}

// Settles: the code's length and passes, and the marks' offsets into the table. Refusals: 6, 7, 8 (or 17, 18), 9 to 12, with the table
// all 0.
#[unsafe(no_mangle)]
pub extern "C" fn sadrokki_settle(state: u64, bytes: &[u8], words: &[u32], table: &mut [u32]) -> u64
    ensures reply { result ≡ assembled_number (settling words_per_section (length table.old)
        (store_in state bytes.now words.now)).reply }
    ensures table { table.new ≡ (settling words_per_section (length table.old)
        (store_in state bytes.now words.now)).table }
    ensures shortest { SettlesDemand3 words_per_section (store_in state bytes.now words.now)
        (length table.old)
        (settling words_per_section (length table.old) (store_in state bytes.now words.now)).reply
        table.new }
    ensures within { SettlesWithin words_per_section (store_in state bytes.now words.now)
        (length table.old)
        (settling words_per_section (length table.old) (store_in state bytes.now words.now)).reply }
    ensures least { SettlesLeast words_per_section (store_in state bytes.now words.now)
        (settling words_per_section (length table.old) (store_in state bytes.now words.now)).reply
        table.new }
{
    answers::settle(state, bytes, words, table)
}

// Writes the code into the result from the position on, by a table from anyone, which is only read. Refusals: 6, 7,
// 8 (or 17, 18), 9, 16 or 10, 12, 13, with nothing changed; passes are 0.
#[unsafe(no_mangle)]
pub extern "C" fn sadrokki_write(
    state: u64,
    bytes: &[u8],
    words: &[u32],
    table: &[u32],
    res: &mut [u8],
    position: usize,
) -> u64
    ensures reply { result ≡ assembled_number (write_by words_per_section (store_in state bytes.now words.now)
        table.now res.old position).reply }
    ensures res { res.new ≡ (write_by words_per_section (store_in state bytes.now words.now)
        table.now res.old position).result }
    ensures shortest { WritesDemand3 words_per_section (store_in state bytes.now words.now)
        table.now res.old position
        (write_by words_per_section (store_in state bytes.now words.now)
        table.now res.old position).reply
        res.new }
    ensures enough { WritesEnough words_per_section (store_in state bytes.now words.now) table.now
        (write_by words_per_section (store_in state bytes.now words.now)
        table.now res.old position).reply }
    ensures pushes { CodePushes words_per_section (store_in state bytes.now words.now) position
        (write_by words_per_section (store_in state bytes.now words.now)
        table.now res.old position).reply
        table.now res.new }
    ensures within { WritesWithin words_per_section (store_in state bytes.now words.now)
        table.now res.old position
        (write_by words_per_section (store_in state bytes.now words.now)
        table.now res.old position).reply }
    ensures least { WritesLeast words_per_section (store_in state bytes.now words.now) table.now
        (write_by words_per_section (store_in state bytes.now words.now)
        table.now res.old position).reply }
{
    answers::write(state, bytes, words, table, res, position)
}

// Writes the listing to the text's start. Refusals: 6, 14, with the text unchanged.
#[unsafe(no_mangle)]
pub extern "C" fn sadrokki_write_asm(
    state: u64,
    bytes: &[u8],
    words: &[u32],
    text: &mut [u8],
) -> u64
    ensures answer { result ≡ listed_number (listing_reply words_per_section (store_in state bytes.now words.now)
        text.old) }
    ensures written { text.new ≡ listing_buffer words_per_section
        (store_in state bytes.now words.now) text.old }
{
    answers::write_asm(state, bytes, words, text)
}
