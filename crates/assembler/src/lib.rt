// Document 01, modules 3 and 4: assembly. Settling, then the code into the lent result from a position on. Document 02, request 3: the write
// by a table from anyone.
// Kept: the public calls take counts, bytes and words apart, as docs/CLAIMS.md and C have them; the functions inside take an `UndamagedStore`.
#![tactic(auto)]

mod emission;

ghost use Rattle.std.specs.Prelude.{◌≡◌, length};
ghost use Rattle.records.specs.Store.{store_of, words_per_section};
ghost use Rattle.assembler.specs.Assemble.{assembled_reply, is_full, assembly};
ghost use Rattle.assembler.specs.Demand3.{Demand3};
ghost use Rattle.assembler.specs.Instructions.{CodePushes};
ghost use Rattle.assembler.specs.TightAssembly.{AssemblesWithin, AssemblesLeast, WritesWithin, WritesLeast};
ghost use Rattle.assembler.specs.Write.{write_by};
ghost use Rattle.assembler.specs.Pair.{WritesDemand3, WritesEnough};

use emission::write_code;
use records::Assembler;
use settling::{clear, settle};
use tables::check_table;
use undamaged::UndamagedStore;
use units::{LaidOut, Refusal};

// Settles the store's sections and writes their code into the result from the position on. Refusals: 6 damaged, 7 short table,
// 8 a direct reference's mark unplaced or 17 a delta's start or 18 its end, whichever section comes first, 9 placed apart, 10 too narrow,
// 11 unsettled, 12 backward, 13 result full.
pub fn assemble(
    store: Assembler,
    bytes: &[u8],
    words: &[u32],
    table: &mut [u32],
    res: &mut [u8],
    position: usize,
) -> Result<LaidOut, Refusal>
    ensures reply { assembled_reply result
        ≡ (assembly words_per_section (store_of store bytes.now words.now)
        (length table.old) res.old position).reply }
    ensures table { table.new
        ≡ (assembly words_per_section (store_of store bytes.now words.now)
        (length table.old) res.old position).table }
    ensures res { res.new
        ≡ (assembly words_per_section (store_of store bytes.now words.now)
        (length table.old) res.old position).result }
    ensures shortest { Demand3 words_per_section (store_of store bytes.now words.now)
        (length table.old) res.old position
        (assembled_reply result) table.new res.new }
    ensures pushes { CodePushes words_per_section (store_of store bytes.now words.now) position
        (assembled_reply result) table.new res.new }
    ensures within { AssemblesWithin words_per_section (store_of store bytes.now words.now)
        (length table.old) res.old position (assembled_reply result) }
    ensures least { AssemblesLeast words_per_section (store_of store bytes.now words.now)
        (assembled_reply result) table.new }
{
    let laid = settle(store, bytes, words, table)?;
    if is_full(res.len(), position, laid.length) {
        clear(table);
        return Err(Refusal::ResultFull {
            passes: laid.passes,
        });
    }
    let store = UndamagedStore {
        counts: store,
        bytes,
        words,
    };
    write_code(store, table, res, position);
    Ok(laid)
}

// Writes a store's code into the result from the position on, by a table that may come from anyone and is only read. Refusals: 6 damaged,
// 7 short table, 8 a direct reference's mark unplaced or 17 a delta's start or 18 its end, whichever section comes first, 9 placed apart,
// 16 an entry that differs or 10 too narrow, 12 backward, 13 result full, with nothing changed; passes are 0 in every answer.
pub fn write(
    store: Assembler,
    bytes: &[u8],
    words: &[u32],
    table: &[u32],
    res: &mut [u8],
    position: usize,
) -> Result<LaidOut, Refusal>
    ensures reply { assembled_reply result
        ≡ (write_by words_per_section (store_of store bytes.now words.now)
        table.now res.old position).reply }
    ensures res { res.new
        ≡ (write_by words_per_section (store_of store bytes.now words.now)
        table.now res.old position).result }
    ensures shortest { WritesDemand3 words_per_section (store_of store bytes.now words.now)
        table.now res.old position (assembled_reply result) res.new }
    ensures enough { WritesEnough words_per_section (store_of store bytes.now words.now)
        table.now (assembled_reply result) }
    ensures pushes { CodePushes words_per_section (store_of store bytes.now words.now) position
        (assembled_reply result) table.now res.new }
    ensures within { WritesWithin words_per_section (store_of store bytes.now words.now)
        table.now res.old position (assembled_reply result) }
    ensures least { WritesLeast words_per_section (store_of store bytes.now words.now)
        table.now (assembled_reply result) }
{
    let laid = check_table(store, bytes, words, table)?;
    if is_full(res.len(), position, laid.length) {
        return Err(Refusal::ResultFull {
            passes: laid.passes,
        });
    }
    let store = UndamagedStore {
        counts: store,
        bytes,
        words,
    };
    write_code(store, table, res, position);
    Ok(laid)
}

// 13: the position is past the result's end, or the length is above what is left.
fn is_full(room: usize, position: usize, length: u32) -> bool
    ensures { result ≡ is_full room position length }
{
    if room < position {
        return true;
    }
    room - position < (length as usize)
}
