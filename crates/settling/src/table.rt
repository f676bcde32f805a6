// The lent table: all 0, the table of first placings that 8, 17, 18 and 9 read, and the start table.
ghost use Rattle.std.specs.Prelude.{◌≡◌, cond, not, ◌+◌, ◌-◌, ◌≤◌, ◌<◌, eqb, ltb, length, replicate, MatchResult};
ghost use Rattle.std.specs.Option.{option_or};
ghost use Rattle.std.specs.Bool.{then_some};
ghost use Rattle.layout.specs.Passes.{entry};
ghost use Rattle.layout.specs.Conditions.{IsFirst, short_at};
ghost use Rattle.settling.specs.SectionWalk.{sections_in, place_mark, Placed, less_one};

use crate::search::is_short;
use crate::section::least_size;
use records::kind;
use undamaged::UndamagedStore;
use units::MarkId;

// Every entry to 0.
pub fn clear(table: &mut [u32])
    ensures { table.new ≡ replicate (length table.old) 0 }
{
    table.fill(0);
}

// At a mark's first placing, the sum of least sizes before it, plus 1; that a later placing has another.
// Kept: an entry 0 for no placing yet, since the lent table is the caller's words and has no room for an Option beside each.
fn place_mark(table: &mut [u32], mark: MarkId, sum: u32) -> bool
    requires { («mark».0 < length table.old) × (sum < 4294967295) }
    ensures apart { result ≡ not (eqb (entry (place_mark table.old «mark».0 sum) «mark».0) (sum + 1)) }
    ensures table { table.new ≡ place_mark table.old «mark».0 sum }
{
    let at = mark.0 as usize;
    let was = table[at];
    if was == 0 {
        table[at] = sum + 1;
        return false;
    }
    was != sum + 1
}

// The earlier of what was found and i, if i is one. Of counts, for a caller that has no Option; `place` goes by `first_found`.
pub fn earlier(found: u32, i: u32, is_one: bool) -> u32
    ensures { result ≡ cond is_one (cond (ltb i found) i found) found }
{
    if is_one && i < found { i } else { found }
}

// What was found, or else section i if it is one.
// Kept: a branch before `or`: `found.or(is_one.then_some(i))` is computed at every mark, 7 instructions more.
fn first_found(found: Option<u32>, i: u32, is_one: bool) -> Option<u32>
    ensures { result ≡ option_or found (then_some is_one i) }
{
    if is_one { found.or(Some(i)) } else { found }
}

// What the walk of the placings finds: the first placing with bytes between it and an earlier one; and whether it met a delta.
#[derive(Clone, Copy)]
pub(crate) struct Placings {
    pub(crate) apart: Option<u32>,
    pub(crate) has_delta: bool,
}

// The table of first placings. Err: the first section with a mark at or past the table's length, at which it stops. 7 and 9 are looked for
// on the way, so that neither needs a walk of its own.
pub(crate) fn place(store: UndamagedStore, table: &mut [u32]) -> Result<Placings, u32>
    requires table_value { table.old ≡ replicate (length table.old) 0 }
    ensures { MatchResult result
        (λ found. Placed (length table.old) (sections_in store.entry) found table.new)
        (λ at. IsFirst (sections_in store.entry) (short_at (length table.old) (sections_in store.entry)) at) }
{
    let limit = table.len();
    let mut sum: u32 = 0;
    let mut apart = None;
    let mut has_delta = false;
    for i in 0..store.counts.sections {
        let section = store.section(i);
        if is_short(section, limit) {
            return Err(i);
        }
        has_delta |= kind::DIRECT < section.kind;
        if section.kind == kind::MARK {
            let is_apart = place_mark(table, MarkId(section.first), sum);
            apart = first_found(apart, i, is_apart);
        } else {
            sum += least_size(section);
        }
    }
    Ok(Placings { apart, has_delta })
}

// Every entry that isn't 0 less 1: of the table of first placings the start table, where none is apart.
pub(crate) fn less_one(table: &mut [u32])
    ensures { table.new ≡ less_one table.old }
{
    for entry in table.iter_mut() {
        *entry = entry.saturating_sub(1);
    }
}
