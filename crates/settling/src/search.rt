// The test for 7 of one section, and the searches for 8, 17 or 18 and for 12: the first section with a property, if there is one.
ghost use Rattle.std.specs.Prelude.{◌≡◌, ℕ, ◌<◌, Bool, leb, length, false};
ghost use Rattle.records.specs.Store.{words_per_section, words_at};
ghost use Rattle.layout.specs.Conditions.{Never, delta_at, unplaced_at, backward_at};
ghost use Rattle.settling.specs.SectionWalk.{sections_in, MarksFit, Found, short_words, unplaced_words, backward_words};
ghost use Rattle.settling.specs.SectionWalk.{first_sums, all_placed, missing_words, missing_refusal};

use crate::section::entry_of;
use records::{StoredSection, kind};
use undamaged::UndamagedStore;
use units::{MarkId, Refusal};

// A mark that a table of this length has no entry for.
fn is_past(mark: MarkId, limit: usize) -> bool
    ensures { result ≡ leb limit «mark».0 }
{
    limit <= (mark.0 as usize)
}

// 7, for one section. It goes by kinds as `place` does, so that the two are compiled to the same branches.
#[tactic(auto, unfolding(crate::specs::SectionWalk::short_words))]
pub fn is_short(section: StoredSection, limit: usize) -> bool
    ensures { result ≡ short_words limit section }
{
    if section.kind == kind::MARK {
        return is_past(MarkId(section.first), limit);
    }
    if section.kind < kind::DIRECT {
        return false;
    }
    if is_past(MarkId(section.first), limit) {
        return true;
    }
    if section.kind == kind::DIRECT {
        return false;
    }
    is_past(MarkId(section.second), limit)
}

// 8, 17 or 18, for one section, by the table of first placings.
// Kept: beside tables' test by its map: one function of both would take `is placed` as a closure, and have a `requires`.
#[tactic(auto, unfolding(crate::specs::SectionWalk::unplaced_words))]
fn is_unplaced(section: StoredSection, table: &[u32]) -> bool
    ensures { result ≡ unplaced_words table.now section }
{
    if section.kind < kind::DIRECT {
        return false;
    }
    if entry_of(table, MarkId(section.first)) == 0 {
        return true;
    }
    if section.kind == kind::DIRECT {
        return false;
    }
    entry_of(table, MarkId(section.second)) == 0
}

// Every mark that the table has room for is placed.
#[tactic(auto, using(crate::proofs::FirstPlacings::none_zero))]
fn all_placed(table: &[u32]) -> bool
    ensures { result ≡ all_placed table.now }
{
    !table.contains(&0)
}

// The first section with the property that a closure tests for, if there is one.
fn first_section<F: Fn(StoredSection) -> bool>(store: UndamagedStore, is_one: F) -> Option<u32>
    requires { (i : ℕ) → i < store.counts.sections → F.pre is_one (words_at words_per_section store.words.now i) }
    ensures { (test : ℕ → Bool)
        → ((i : ℕ) (b : Bool) → i < store.entry.counts.sections
        → F.post is_one (words_at words_per_section store.entry.words.now i) b → test i ≡ b)
        → Found (sections_in store.entry) test result }
{
    for i in 0..store.counts.sections {
        if is_one(store.section(i)) {
            return Some(i);
        }
    }
    None
}

// The first reference to a mark that is never placed. Where all are placed, the sections need no walk.
pub(crate) fn first_unplaced(store: UndamagedStore, table: &[u32]) -> Option<u32>
    requires in_table { MarksFit (sections_in store) (length table.now) }
    requires table_value { table.now ≡ first_sums (length table.now) (sections_in store) }
    ensures { Found (sections_in store.entry) (unplaced_at (sections_in store.entry)) result }
{
    if all_placed(table) {
        return None;
    }
    first_section(store, |section| is_unplaced(section, table))
}

// 8, 17 or 18 for the section that the search found: by its kind and, of a delta, by whether its start is placed. `tables` calls it too.
#[tactic(auto, unfolding(crate::specs::SectionWalk::missing_words))]
pub fn missing_refusal(section: StoredSection, start_placed: bool, at: u32) -> Refusal
    ensures { result ≡ missing_refusal (missing_words start_placed section) at }
{
    if section.kind == kind::DIRECT {
        return Refusal::Unplaced { section: at };
    }
    if start_placed {
        return Refusal::EndUnplaced { section: at };
    }
    Refusal::StartUnplaced { section: at }
}

// 12, for one section, by a table.
#[tactic(auto, unfolding(crate::specs::SectionWalk::backward_words))]
pub fn is_backward(section: StoredSection, table: &[u32]) -> bool
    ensures { result ≡ backward_words table.now section }
{
    if section.kind <= kind::DIRECT {
        return false;
    }
    entry_of(table, MarkId(section.second)) < entry_of(table, MarkId(section.first))
}

// The first delta whose end is below its start. Where there is no delta, the sections need no walk.
pub(crate) fn first_backward(store: UndamagedStore, table: &[u32], has_delta: bool) -> Option<u32>
    requires in_table { MarksFit (sections_in store) (length table.now) }
    requires never { has_delta ≡ false
        → Never (sections_in store) (delta_at (sections_in store)) }
    ensures { Found (sections_in store.entry) (backward_at table.now (sections_in store.entry)) result }
{
    if !has_delta {
        return None;
    }
    first_section(store, |section| is_backward(section, table))
}
