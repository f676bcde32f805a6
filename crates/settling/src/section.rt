// One section as the walks of settling read it: by its three words, which become marks or positions once the kind is known. In an
// undamaged store a kind below Direct that isn't a mark is Ops or Data, and one above it a delta.
ghost use Rattle.std.specs.Prelude.{◌≡◌, ◌-◌, ◌≤◌, ◌<◌, length};
ghost use Rattle.records.specs.Record.{direct_kind};
ghost use Rattle.layout.specs.Passes.{entry};
ghost use Rattle.settling.specs.SectionWalk.{MarksIn, value_words, least_words, size_words};

use records::{StoredSection, form_of, kind};
use units::{AsmBytesIdx, MarkId, form};

// A mark's entry of the table; 0 where it has none.
pub fn entry_of(table: &[u32], mark: MarkId) -> u32
    ensures { result ≡ entry table.now «mark».0 }
{
    let at = mark.0 as usize;
    if at < table.len() { table[at] } else { 0 }
}

// A mark's entry of a table that has one for it.
// Kept: beside `entry_of`, asked for an index in range: that one tests its index, and the passes read an entry for every reference.
fn entry_in(table: &[u32], mark: MarkId) -> u32
    requires { «mark».0 < length table.now }
    ensures { result ≡ entry table.now «mark».0 }
{
    table[mark.0 as usize]
}

// The length of an Ops or Data section; an end before its start reads 0.
pub fn span_length(section: StoredSection) -> u32
    ensures { result ≡ section.second - section.first }
{
    let start = AsmBytesIdx(section.first);
    let end = AsmBytesIdx(section.second);
    end.0.saturating_sub(start.0)
}

// A reference's value by the table as it is; an end below its start reads 0.
#[tactic(auto, unfolding(crate::specs::SectionWalk::value_words))]
pub fn value_of(section: StoredSection, table: &[u32]) -> u32
    ensures { result ≡ value_words table.now section }
{
    let start = entry_of(table, MarkId(section.first));
    if section.kind == kind::DIRECT {
        return start;
    }
    entry_of(table, MarkId(section.second)).saturating_sub(start)
}

// The same of a reference whose marks the table has entries for, as the passes read it.
#[tactic(auto, unfolding(crate::specs::SectionWalk::value_words))]
fn value_in(section: StoredSection, table: &[u32]) -> u32
    requires { MarksIn (length table.now) section × (direct_kind ≤ section.kind) }
    ensures { result ≡ value_words table.now section }
{
    let start = entry_in(table, MarkId(section.first));
    if section.kind == kind::DIRECT {
        return start;
    }
    entry_in(table, MarkId(section.second)).saturating_sub(start)
}

// The least size of a section that isn't a mark.
#[tactic(auto, unfolding(crate::specs::SectionWalk::least_words))]
pub(crate) fn least_size(section: StoredSection) -> u32
    ensures { result ≡ least_words section }
{
    if section.kind < kind::DIRECT {
        return span_length(section);
    }
    form::least_size(form_of(section))
}

// The size of a section that isn't a mark, by the table as it is; none if it is too narrow.
#[tactic(auto, unfolding(crate::specs::SectionWalk::size_words))]
pub fn size_of(section: StoredSection, table: &[u32]) -> Option<u32>
    ensures { result ≡ size_words table.now section }
{
    if section.kind < kind::DIRECT {
        return Some(span_length(section));
    }
    form::size_for(form_of(section), value_of(section, table))
}

// The same of a section whose marks the table has entries for and whose end isn't before its start, as the passes read it.
#[tactic(auto, unfolding(crate::specs::SectionWalk::size_words))]
pub(crate) fn size_in(section: StoredSection, table: &[u32]) -> Option<u32>
    requires { MarksIn (length table.now) section × (section.kind < direct_kind → section.first ≤ section.second) }
    ensures { result ≡ size_words table.now section }
{
    if section.kind < kind::DIRECT {
        return Some(section.second - section.first);
    }
    form::size_for(form_of(section), value_in(section, table))
}
