// The tests of a last section, on its three words.
ghost use Rattle.std.specs.Prelude.{◌≡◌, true, false, ◌+◌, ◌*◌, ◌≤◌, length};
ghost use Rattle.records.specs.Record.{max_mark, read_section, stored_section};
ghost use Rattle.records.specs.Store.{words_per_section, words_at};
ghost use Rattle.records.specs.Damage.{unreadable, broken_last};
ghost use Rattle.short.specs.Tests.{EndsAt};

use records::{Assembler, kind};

// The form of a direct reference as most are: pushed, of no set size.
const USUAL_FORM: u32 = 8;

// A section can be read and, with bytes, ends at the stored count. Of a direct reference only the usual form is taken.
#[tactic(auto, using(crate::proofs::Whole::whole_reference))]
pub(crate) fn is_whole(words: &[u32], i: usize, stored: u32) -> bool
    requires { words_per_section * (i + 1) ≤ length words.now }
    ensures { result ≡ true → broken_last (words_at words_per_section words.now i) stored ≡ false }
{
    let at = Assembler::WORDS * i;
    let kind = words[at];
    if kind == kind::MARK {
        return is_mark(words[at + 1], words[at + 2]);
    }
    if kind < kind::DIRECT {
        return ends_at(words[at + 1], words[at + 2], stored);
    }
    if kind::LAST < kind {
        return false;
    }
    is_reference(kind, words[at + 1], words[at + 2])
}

// A section of a kind that ends at the stored count.
pub(crate) fn is_kind_to(words: &[u32], i: usize, kind: u32, stored: u32) -> bool
    requires { words_per_section * (i + 1) ≤ length words.now }
    ensures { result ≡ true → EndsAt (words_at words_per_section words.now i) kind stored }
{
    let at = Assembler::WORDS * i;
    if words[at] != kind {
        return false;
    }
    ends_at(words[at + 1], words[at + 2], stored)
}

// The fields of a mark.
fn is_mark(first: u32, second: u32) -> bool
    ensures { result ≡ true → (first ≤ max_mark) × (second ≡ 0) }
{
    if second != 0 {
        return false;
    }
    first <= Assembler::MAX_MARK
}

// The fields of bytes that end at the stored count.
fn ends_at(first: u32, second: u32, stored: u32) -> bool
    ensures { result ≡ true → (first ≤ stored) × (second ≡ stored) }
{
    if second != stored {
        return false;
    }
    first <= stored
}

// The fields of a reference of this kind.
#[tactic(auto, using(crate::proofs::Whole::direct_readable, crate::proofs::Whole::delta_readable))]
fn is_reference(kind: u32, first: u32, second: u32) -> bool
    requires { (3 ≤ kind) × (kind ≤ 13) }
    ensures { result ≡ true → unreadable (read_section (stored_section kind first second)) ≡ false }
{
    if Assembler::MAX_MARK < first {
        return false;
    }
    if kind == kind::DIRECT {
        return second == USUAL_FORM;
    }
    second <= Assembler::MAX_MARK
}
