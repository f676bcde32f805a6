// Document 01, module 3: the tests for 7, 8 (of document 02, request 5, with 17 and 18) and 9, and the settling. The lent table holds what
// the tests need to remember; it is 0 again when they refuse.
// Kept: the public calls take counts, bytes and words apart, as docs/CLAIMS.md and C have them; the functions inside take an `UndamagedStore`.
// Kept: `MarksFit` is asked by each walk, since the table is lent on by `&mut`: a struct of store and table would be taken apart at each.
#![tactic(auto)]

mod passes;
mod search;
mod section;
mod table;

ghost use Rattle.std.specs.Prelude.{◌≡◌, length, replicate, false, Err};
ghost use Rattle.records.specs.Store.{store_of, words_per_section};
ghost use Rattle.layout.specs.Passes.{start};
ghost use Rattle.layout.specs.Conditions.{IsFirst, Never, unplaced_at, delta_at};
ghost use Rattle.layout.specs.Answer.{answer, answer_reply, answer_table};
ghost use Rattle.settling.specs.SectionWalk.{sections_in, MarksFit, first_sums, less_one, settled_answer};
ghost use Rattle.settling.specs.Settle.{settling, settled_reply};
ghost use Rattle.settling.specs.SettlingShortest.{SettlesDemand3};
ghost use Rattle.settling.specs.TightSettling.{SettlesWithin, SettlesLeast};

use crate::passes::run_passes;
use crate::search::{first_backward, first_unplaced};
use crate::table::{less_one, place};
use records::Assembler;
pub use search::{is_backward, is_short, missing_refusal};
pub use section::{entry_of, size_of, span_length, value_of};
pub use table::{clear, earlier};
use undamaged::UndamagedStore;
use units::{LaidOut, MarkId, Refusal};

// Settling over a store and a lent table, whatever they hold. Refusals: 6 damaged, 7 short table, 8 a direct reference's mark unplaced or
// 17 a delta's start or 18 its end, whichever section comes first, 9 placed apart, 10 too narrow, 11 unsettled, 12 backward.
pub fn settle(
    store: Assembler,
    bytes: &[u8],
    words: &[u32],
    table: &mut [u32],
) -> Result<LaidOut, Refusal>
    ensures reply { settled_reply result
        ≡ (settling words_per_section (length table.old) (store_of store bytes.now words.now)).reply }
    ensures table { table.new
        ≡ (settling words_per_section (length table.old) (store_of store bytes.now words.now)).table }
    ensures shortest { SettlesDemand3 words_per_section (store_of store bytes.now words.now) (length table.old)
        (settled_reply result) table.new }
    ensures within { SettlesWithin words_per_section (store_of store bytes.now words.now) (length table.old)
        (settled_reply result) }
    ensures least { SettlesLeast words_per_section (store_of store bytes.now words.now)
        (settled_reply result) table.new }
{
    clear(table); // on a 6 too
    let store = UndamagedStore::check(store, bytes, words)?;
    settle_whole(store, table)
}

// 7, then 8, 17 or 18, then 9, then the settling, of an undamaged store.
fn settle_whole(store: UndamagedStore, table: &mut [u32]) -> Result<LaidOut, Refusal>
    requires table_value { table.old ≡ replicate (length table.old) 0 }
    ensures reply { settled_reply result
        ≡ answer_reply (answer (length table.old) (sections_in store.entry)) }
    ensures table { table.new
        ≡ answer_table (length table.old)
        (answer (length table.old) (sections_in store.entry)) }
{
    let found = match place(store, table) {
        Ok(found) => found,
        Err(section) => return refuse(table, Refusal::ShortTable { section }),
    };
    if let Some(section) = first_unplaced(store, table) {
        return refuse_unplaced(store, table, section);
    }
    if let Some(section) = found.apart {
        return refuse(table, Refusal::PlacedApart { section });
    }
    settle_placed(store, table, found.has_delta)
}

// 8, 17 or 18: the section that the search found is read once more for which mark it misses.
fn refuse_unplaced(store: UndamagedStore, table: &mut [u32], at: u32) -> Result<LaidOut, Refusal>
    requires in_table { MarksFit (sections_in store) (length table.old) }
    requires table_value { table.old ≡ first_sums (length table.old) (sections_in store) }
    requires first { IsFirst (sections_in store) (unplaced_at (sections_in store)) at }
    ensures reply { settled_reply result
        ≡ answer_reply (answer (length table.old) (sections_in store.entry)) }
    ensures table { table.new
        ≡ answer_table (length table.old)
        (answer (length table.old) (sections_in store.entry)) }
{
    let section = store.section(at);
    let start_placed = entry_of(table, MarkId(section.first)) != 0;
    refuse(table, missing_refusal(section, start_placed, at))
}

// The start table, the passes and 12, where 7 to 9, 17 and 18 are not the answer.
fn settle_placed(
    store: UndamagedStore,
    table: &mut [u32],
    has_delta: bool,
) -> Result<LaidOut, Refusal>
    requires in_table { MarksFit (sections_in store) (length table.old) }
    requires table_value { less_one table.old ≡ start (length table.old) (sections_in store) }
    requires never { has_delta ≡ false
        → Never (sections_in store) (delta_at (sections_in store)) }
    ensures reply { settled_reply result
        ≡ answer_reply (settled_answer (length table.old) (sections_in store.entry)) }
    ensures table { table.new
        ≡ answer_table (length table.old)
        (settled_answer (length table.old) (sections_in store.entry)) }
{
    less_one(table);
    let laid = run_passes(store, table)?;
    if let Some(section) = first_backward(store, table, has_delta) {
        let refusal = Refusal::Backward {
            section,
            passes: laid.passes,
        };
        return refuse(table, refusal);
    }
    Ok(laid)
}

// A refusal after the tests of 6: the table, which may hold placings or offsets, is all 0 again.
pub(crate) fn refuse(table: &mut [u32], refusal: Refusal) -> Result<LaidOut, Refusal>
    ensures reply { result ≡ Err refusal }
    ensures table { table.new ≡ replicate (length table.old) 0 }
{
    clear(table);
    Err(refusal)
}
