// The tests of the short ways, on counts and slices; each true answer holds what its definition says.
ghost use Rattle.std.specs.Prelude.{◌≡◌, true, ◌<◌, ◌^◌};
ghost use Rattle.records.specs.Store.{words_per_section};
ghost use Rattle.numbers.specs.Numbers.{store_in};
ghost use Rattle.short.specs.Tests.{Takes, Extends, Begins};

use crate::last::{is_kind_to, is_whole};
use numbers::SECTION;
use records::{Assembler, kind};

// One section more is taken, after a last one. A store whose bytes are full is left to be judged: both limits are then one test of the
// state's bits. The order of the tests is the one that compiles to the fewest jumps.
pub(crate) fn takes_section(state: u64, bytes: &[u8], words: &[u32]) -> bool
    ensures { result ≡ true → Takes words_per_section (store_in state bytes.now words.now) }
{
    let stored = (state % SECTION) as u32;
    let sections = (state / SECTION) as u32;
    let next = sections as usize;
    if words.len() < Assembler::WORDS * next + Assembler::WORDS {
        return false;
    }
    if Assembler::MAX_SECTIONS <= sections {
        return false;
    }
    if Assembler::MAX_BYTES <= stored {
        return false;
    }
    if sections == 0 {
        return false;
    }
    if bytes.len() < (stored as usize) {
        return false;
    }
    is_whole(words, next - 1, stored)
}

// So many bytes more are taken, and extend a last section of this kind. That there is a section is asked of the state's number itself.
pub(crate) fn extends(state: u64, bytes: &[u8], words: &[u32], kind: u32, added: usize) -> bool
    requires { added < 2 ^ 63 }
    ensures { result ≡ true → Extends words_per_section kind added (store_in state bytes.now words.now) }
{
    let stored = (state % SECTION) as usize;
    let sections = (state / SECTION) as usize;
    if bytes.len() < stored + added {
        return false;
    }
    if (Assembler::MAX_BYTES as usize) < stored + added {
        return false;
    }
    if state < SECTION {
        return false;
    }
    if words.len() < Assembler::WORDS * sections {
        return false;
    }
    if (Assembler::MAX_SECTIONS as usize) < sections {
        return false;
    }
    is_kind_to(words, sections - 1, kind, stored as u32)
}

// So many op bytes are taken, and begin an Ops section.
pub(crate) fn begins_ops(state: u64, bytes: &[u8], words: &[u32], added: usize) -> bool
    requires { added < 2 ^ 63 }
    ensures { result ≡ true → Begins words_per_section added (store_in state bytes.now words.now) }
{
    let end = (state % SECTION) as usize + added;
    if bytes.len() < end {
        return false;
    }
    if (Assembler::MAX_BYTES as usize) < end {
        return false;
    }
    if !takes_section(state, bytes, words) {
        return false;
    }
    let last = (state / SECTION) as usize - 1;
    words[Assembler::WORDS * last] != kind::OPS
}
