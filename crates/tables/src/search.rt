// The searches that a walk leaves to be done: 7 from where it stopped, the marks placed from there on, 8, 17 or 18 by the map, and, where it
// stopped, 9. Each search answers the first section with a property, if there is one.
ghost use Rattle.std.specs.Prelude.{◌≡◌, ◌*◌, ◌≤◌, length, replicate};
ghost use Rattle.layout.specs.Conditions.{short_at, unplaced_at, apart_at};
ghost use Rattle.settling.specs.SectionWalk.{sections_in, MarksFit, MarksIn, Found};
ghost use Rattle.tables.specs.MarkMap.{Covers, Marked};
ghost use Rattle.tables.specs.TableWalk.{NoneTo, unplaced_by, bytes_words};

use crate::map::MarkMap;
use records::{StoredSection, kind};
use settling::{is_short, span_length};
use undamaged::UndamagedStore;
use units::MarkId;

// 7, from a section on before which there is none.
// Kept: a loop here and in `first_unplaced`: settling's `first_section`, which takes the test as a closure, has a `requires`, so it can't be public; by `find` on a range the same closure is asked for its own bounds.
pub(crate) fn first_short(store: UndamagedStore, limit: usize, from: u32) -> Option<u32>
    requires { NoneTo (short_at limit (sections_in store)) from }
    ensures { Found (sections_in store.entry) (short_at limit (sections_in store.entry)) result }
{
    for i in from..store.counts.sections {
        if is_short(store.section(i), limit) {
            return Some(i);
        }
    }
    None
}

// A store and a table with an entry for each of its marks, as the search for 7 found; a map of so many bytes has room for them.
#[derive(Clone, Copy)]
pub(crate) struct Fitting<'a, const BYTES: usize> {
    pub(crate) store: UndamagedStore<'a>,
    pub(crate) table: &'a [u32],
    pub(crate) ghost in_table: { MarksFit (sections_in store) (length table.now) },
    pub(crate) ghost covers: { Covers (length table.now) BYTES },
}

impl<'a, const BYTES: usize> Fitting<'a, BYTES> {
    // Puts the marks placed from a section on, up to another, into the map that has those placed before it.
    pub(crate) fn put_marks(self, from: u32, to: u32, map: &mut MarkMap<BYTES>)
        requires from_le_to { (from ≤ to) × (to ≤ self.store.counts.sections) }
        requires marked { Marked (sections_in self.store) from map.old.bits }
        ensures { Marked (sections_in self.entry.store) to map.new.bits }
    {
        for i in from..to {
            let section = self.store.section(i);
            if section.kind == kind::MARK {
                map.insert(MarkId(section.first));
            }
        }
    }

    // The first reference to a mark that is never placed. Where every mark that the table has room for is placed, the sections need no walk.
    pub(crate) fn first_unplaced(self, map: &MarkMap<BYTES>) -> Option<u32>
        requires { Marked (sections_in self.store) self.store.counts.sections map.now.bits }
        ensures { Found (sections_in self.entry.store) (unplaced_at (sections_in self.entry.store)) result }
    {
        if map.has_all_below(self.table.len()) {
            return None;
        }
        for i in 0..self.store.counts.sections {
            if is_unplaced(self.store.section(i), map) {
                return Some(i);
            }
        }
        None
    }

    // The first placing with bytes between it and an earlier one. The map has the marks placed before `run`, the last section with bytes so
    // far: a mark that is in it when it is placed again has those bytes between. The map is of no mark at first.
    pub(crate) fn first_apart(self, map: &mut MarkMap<BYTES>) -> Option<u32>
        requires { map.old.bits ≡ replicate BYTES 0 }
        ensures { Found (sections_in self.entry.store) (apart_at (sections_in self.entry.store)) result }
    {
        let mut run: u32 = 0;
        for i in 0..self.store.counts.sections {
            let section = self.store.section(i);
            if section.kind == kind::MARK {
                if map.contains(MarkId(section.first)) {
                    return Some(i);
                }
            } else if has_bytes(section) {
                self.put_marks(run, i, map);
                run = i;
            }
        }
        None
    }
}

// 8, 17 or 18, for one section, by the map of the marks that are placed.
// Kept: beside settling's test by its table, for the reason given there.
#[tactic(auto, using(std::proofs::lemmas::Bool::Decides::nat_tests), unfolding(crate::specs::TableWalk::unplaced_by))]
fn is_unplaced<const BYTES: usize>(section: StoredSection, map: &MarkMap<BYTES>) -> bool
    requires { MarksIn (8 * BYTES) section }
    ensures { result ≡ unplaced_by map.now.bits section }
{
    if section.kind < kind::DIRECT {
        return false;
    }
    if !map.contains(MarkId(section.first)) {
        return true;
    }
    if section.kind == kind::DIRECT {
        return false;
    }
    !map.contains(MarkId(section.second))
}

// A reference, or an Ops or Data section that isn't empty.
#[tactic(auto, using(std::proofs::lemmas::Bool::Decides::nat_tests), unfolding(crate::specs::TableWalk::bytes_words))]
fn has_bytes(section: StoredSection) -> bool
    ensures { result ≡ bytes_words section }
{
    if section.kind == kind::MARK {
        return false;
    }
    if section.kind < kind::DIRECT {
        return 0 < span_length(section);
    }
    true
}
