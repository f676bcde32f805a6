// Settling, the write, assembly and the listing by a state's number, each answered by one number.
// Kept: a state and an answer are one number, and the slices are apart, since C has it so (sadrokki).
#![tactic(auto)]

ghost use Rattle.std.specs.Prelude.{◌≡◌, length};
ghost use Rattle.records.specs.Store.{words_per_section};
ghost use Rattle.settling.specs.Settle.{settling, settled_reply};
ghost use Rattle.settling.specs.SettlingShortest.{SettlesDemand3};
ghost use Rattle.settling.specs.TightSettling.{SettlesWithin, SettlesLeast};
ghost use Rattle.assembler.specs.Assemble.{assembled_reply, assembly};
ghost use Rattle.assembler.specs.Demand3.{Demand3};
ghost use Rattle.assembler.specs.Instructions.{CodePushes};
ghost use Rattle.assembler.specs.TightAssembly.{AssemblesWithin, AssemblesLeast, WritesWithin, WritesLeast};
ghost use Rattle.assembler.specs.Write.{write_by};
ghost use Rattle.assembler.specs.Pair.{WritesDemand3, WritesEnough};
ghost use Rattle.listing.specs.Answer.{listed_reply, listing_reply, listing_buffer};
ghost use Rattle.numbers.specs.Numbers.{store_in};
ghost use Rattle.answers.specs.Numbers.{assembled_number, listed_number, AssembledPacks, ListedPacks};

use numbers::{SECTION, counts_in, refusal_number};
use units::{LaidOut, Refusal};

// Writes the code into the result from the position on, and the marks' offsets into the table. Refusals: 6, 7, 8 (or 17, 18), 9 to
// 13, with the table all 0 and the result unchanged.
pub fn assemble(
    state: u64,
    bytes: &[u8],
    words: &[u32],
    table: &mut [u32],
    res: &mut [u8],
    position: usize,
) -> u64
    ensures reply { result ≡ assembled_number (assembly words_per_section (store_in state bytes.now words.now)
        (length table.old) res.old position).reply }
    ensures table { table.new ≡ (assembly words_per_section (store_in state bytes.now words.now)
        (length table.old) res.old position).table }
    ensures res { res.new ≡ (assembly words_per_section (store_in state bytes.now words.now)
        (length table.old) res.old position).result }
    ensures shortest { Demand3 words_per_section (store_in state bytes.now words.now)
        (length table.old) res.old position
        (assembly words_per_section (store_in state bytes.now words.now)
        (length table.old) res.old position).reply
        table.new res.new }
    ensures pushes { CodePushes words_per_section (store_in state bytes.now words.now) position
        (assembly words_per_section (store_in state bytes.now words.now)
        (length table.old) res.old position).reply
        table.new res.new }
    ensures within { AssemblesWithin words_per_section (store_in state bytes.now words.now)
        (length table.old) res.old position
        (assembly words_per_section (store_in state bytes.now words.now)
        (length table.old) res.old position).reply }
    ensures least { AssemblesLeast words_per_section (store_in state bytes.now words.now)
        (assembly words_per_section (store_in state bytes.now words.now)
        (length table.old) res.old position).reply
        table.new }
{
    assembled_number(assembler::assemble(counts_in(state), bytes, words, table, res, position))
}

// Settles: the code's length and passes, and the marks' offsets into the table. Refusals: 6, 7, 8 (or 17, 18), 9 to 12, with the table
// all 0.
pub fn settle(state: u64, bytes: &[u8], words: &[u32], table: &mut [u32]) -> u64
    ensures reply { result ≡ assembled_number (settling words_per_section (length table.old)
        (store_in state bytes.now words.now)).reply }
    ensures table { table.new ≡ (settling words_per_section (length table.old)
        (store_in state bytes.now words.now)).table }
    ensures shortest { SettlesDemand3 words_per_section (store_in state bytes.now words.now)
        (length table.old)
        (settling words_per_section (length table.old) (store_in state bytes.now words.now)).reply
        table.new }
    ensures within { SettlesWithin words_per_section (store_in state bytes.now words.now)
        (length table.old)
        (settling words_per_section (length table.old) (store_in state bytes.now words.now)).reply }
    ensures least { SettlesLeast words_per_section (store_in state bytes.now words.now)
        (settling words_per_section (length table.old) (store_in state bytes.now words.now)).reply
        table.new }
{
    assembled_number(settling::settle(counts_in(state), bytes, words, table))
}

// Writes the code into the result from the position on, by a table from anyone, which is only read. Refusals: 6, 7,
// 8 (or 17, 18), 9, 16 or 10, 12, 13, with nothing changed; passes are 0.
pub fn write(
    state: u64,
    bytes: &[u8],
    words: &[u32],
    table: &[u32],
    res: &mut [u8],
    position: usize,
) -> u64
    ensures reply { result ≡ assembled_number (write_by words_per_section (store_in state bytes.now words.now)
        table.now res.old position).reply }
    ensures res { res.new ≡ (write_by words_per_section (store_in state bytes.now words.now)
        table.now res.old position).result }
    ensures shortest { WritesDemand3 words_per_section (store_in state bytes.now words.now)
        table.now res.old position
        (write_by words_per_section (store_in state bytes.now words.now)
        table.now res.old position).reply
        res.new }
    ensures enough { WritesEnough words_per_section (store_in state bytes.now words.now) table.now
        (write_by words_per_section (store_in state bytes.now words.now)
        table.now res.old position).reply }
    ensures pushes { CodePushes words_per_section (store_in state bytes.now words.now) position
        (write_by words_per_section (store_in state bytes.now words.now)
        table.now res.old position).reply
        table.now res.new }
    ensures within { WritesWithin words_per_section (store_in state bytes.now words.now)
        table.now res.old position
        (write_by words_per_section (store_in state bytes.now words.now)
        table.now res.old position).reply }
    ensures least { WritesLeast words_per_section (store_in state bytes.now words.now) table.now
        (write_by words_per_section (store_in state bytes.now words.now)
        table.now res.old position).reply }
{
    assembled_number(assembler::write(counts_in(state), bytes, words, table, res, position))
}

// Writes the listing to the text's start. Refusals: 6, 14, with the text unchanged.
pub fn write_asm(state: u64, bytes: &[u8], words: &[u32], text: &mut [u8]) -> u64
    ensures answer { result ≡ listed_number (listing_reply words_per_section (store_in state bytes.now words.now)
        text.old) }
    ensures written { text.new ≡ listing_buffer words_per_section
        (store_in state bytes.now words.now) text.old }
{
    listed_number(listing::write_asm(counts_in(state), bytes, words, text))
}

// The answer to settling, to a write or to assembly as a number.
// Kept: no `From`, here and below, since neither type is this crate's.
fn assembled_number(assembled: Result<LaidOut, Refusal>) -> u64
    requires { AssembledPacks (assembled_reply assembled) }
    ensures { result ≡ assembled_number (assembled_reply assembled) }
{
    match assembled {
        Ok(laid) => (laid.passes as u64) * SECTION + (laid.length as u64),
        Err(refusal) => refusal_number(refusal),
    }
}

// The answer to a listing as a number.
fn listed_number(listed: Result<usize, Refusal>) -> u64
    requires { ListedPacks (listed_reply listed) }
    ensures { result ≡ listed_number (listed_reply listed) }
{
    match listed {
        Ok(length) => length as u64,
        Err(refusal) => refusal_number(refusal),
    }
}
