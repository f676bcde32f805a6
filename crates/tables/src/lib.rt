// Document 02, request 3: the tests of a store and of an offset table 'from anyone', all but the room for the code. The table is lent to
// read only, so that what 8, 17, 18 and 9 need to remember is a map of one bit for each mark, made here: of 2,048 bytes where the table has at most
// 16,384 entries, else of 131,072, enough for every mark number.
// Kept: the public calls take counts, bytes and words apart, as docs/CLAIMS.md and C have them; the functions inside take an `UndamagedStore`.
// Kept: `Marked` and `IsFirst` are facts of a moment, how far the map is filled and what a search found, so that no type can hold them.
#![tactic(auto)]

mod compare;
mod map;
mod search;

ghost use Rattle.std.specs.Prelude.{◌≡◌, ◌^◌, ◌<◌, length, replicate, Err};
ghost use Rattle.records.specs.Store.{store_of, words_per_section};
ghost use Rattle.layout.specs.Conditions.{IsFirst, Never, unplaced_at};
ghost use Rattle.settling.specs.Settle.{settled_reply};
ghost use Rattle.settling.specs.SectionWalk.{sections_in};
ghost use Rattle.tables.specs.TableTests.{wrong_at, table_answer, table_reply, table_test};
ghost use Rattle.tables.specs.TableAnswers.{AcceptsEnough};
ghost use Rattle.tables.specs.MarkMap.{Covers, Marked};

use compare::compare;
use map::MarkMap;
use records::{Assembler, kind};
use search::{Fitting, first_short};
use settling::missing_refusal;
use undamaged::UndamagedStore;
use units::{LaidOut, MarkId, Refusal};

// A table of at most so many entries has the small map.
const SMALL: usize = 16384;

// Whether a store's code can be written by a table, whatever they hold: its length in all, with 0 passes. Refusals: 6 damaged,
// 7 short table, 8 a direct reference's mark unplaced or 17 a delta's start or 18 its end, whichever section comes first, 9 placed apart,
// 16 an entry that differs or 10 too narrow, 12 backward. Nothing is changed.
pub fn check_table(
    store: Assembler,
    bytes: &[u8],
    words: &[u32],
    table: &[u32],
) -> Result<LaidOut, Refusal>
    ensures reply { settled_reply result
        ≡ table_test words_per_section (store_of store bytes.now words.now) table.now }
    ensures enough { AcceptsEnough words_per_section (store_of store bytes.now words.now) table.now
        (settled_reply result) }
{
    let store = UndamagedStore::check(store, bytes, words)?;
    if table.len() <= SMALL {
        return check_in::<2048>(store, table);
    }
    check_in::<131072>(store, table)
}

// 7; 8, 17 or 18; 9; 16 or 10; and 12, with a map of so many bytes. Where none of them is the answer the sections are walked once, and once
// more for 8, 17 and 18 unless every mark that the table has room for is placed.
fn check_in<const BYTES: usize>(store: UndamagedStore, table: &[u32]) -> Result<LaidOut, Refusal>
    requires covers { Covers (length table.now) BYTES }
    requires fits { BYTES < 2 ^ 63 }
    ensures { settled_reply result ≡ table_reply (table_answer table.now (sections_in store.entry)) }
{
    let mut map = MarkMap::<BYTES>::new();
    let compared = compare(store, table, &mut map);
    let stopped = compared.err().unwrap_or(store.counts.sections);
    if let Some(section) = first_short(store, table.len(), stopped) {
        return Err(Refusal::ShortTable { section });
    }
    let fitting = Fitting::<BYTES> { store, table };
    fitting.put_marks(stopped, store.counts.sections, &mut map);
    if let Some(at) = fitting.first_unplaced(&map) {
        return Err(unplaced_refusal(fitting, at, &map));
    }
    let agreed = match compared {
        Ok(agreed) => agreed,
        Err(at) => return Err(wrong_refusal(fitting, at, &mut map)),
    };
    if let Some(section) = agreed.backward {
        return Err(Refusal::Backward { section, passes: 0 });
    }
    Ok(LaidOut {
        length: agreed.length,
        passes: 0,
    })
}

// 8, 17 or 18: the section that the search found is read once more for which mark it misses.
fn unplaced_refusal<const BYTES: usize>(
    fitting: Fitting<BYTES>,
    at: u32,
    map: &MarkMap<BYTES>,
) -> Refusal
    requires marked { Marked (sections_in fitting.store) fitting.store.counts.sections map.now.bits }
    requires first { IsFirst (sections_in fitting.store) (unplaced_at (sections_in fitting.store)) at }
    ensures { settled_reply (Err result)
        ≡ table_reply (table_answer fitting.entry.table.now (sections_in fitting.entry.store)) }
{
    let section = fitting.store.section(at);
    let start_placed = map.contains(MarkId(section.first));
    missing_refusal(section, start_placed, at)
}

// 9, or else 16 or 10 at the section that the walk found.
fn wrong_refusal<const BYTES: usize>(
    fitting: Fitting<BYTES>,
    at: u32,
    map: &mut MarkMap<BYTES>,
) -> Refusal
    requires never { Never (sections_in fitting.store) (unplaced_at (sections_in fitting.store)) }
    requires first { IsFirst (sections_in fitting.store) (wrong_at fitting.table.now (sections_in fitting.store)) at }
    ensures { settled_reply (Err result)
        ≡ table_reply (table_answer fitting.entry.table.now (sections_in fitting.entry.store)) }
{
    map.clear();
    if let Some(section) = fitting.first_apart(map) {
        return Refusal::PlacedApart { section };
    }
    let section = fitting.store.section(at);
    if section.kind == kind::MARK {
        return Refusal::EntryDiffers { section: at };
    }
    Refusal::TooNarrow {
        section: at,
        passes: 0,
    }
}
