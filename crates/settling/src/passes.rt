// The passes: a walk over the sections in place, again until no mark moves, at most 1,024 times.
ghost use Rattle.std.specs.Prelude.{◌≡◌, ◌<◌, length, set};
ghost use Rattle.units.specs.Replies.{max_passes};
ghost use Rattle.layout.specs.Passes.{unlike, pass, passes};
ghost use Rattle.settling.specs.SectionWalk.{sections_in, MarksFit, walked, passes_reply, passes_table};

use crate::refuse;
use crate::section::size_in;
use records::kind;
use std::mem::replace;
use undamaged::UndamagedStore;
use units::{LaidOut, MAX_PASSES, MarkId, Refusal};

// A mark's entry to the sum of sizes before it; that it was another.
fn move_mark(table: &mut [u32], mark: MarkId, sum: u32) -> bool
    requires { «mark».0 < length table.old }
    ensures moved { result ≡ unlike table.old «mark».0 sum }
    ensures table { table.new ≡ set table.old «mark».0 sum }
{
    replace(&mut table[mark.0 as usize], sum) != sum
}

// What a pass comes to: the length in all; that a mark moved.
#[derive(Clone, Copy)]
pub(crate) struct Pass {
    pub(crate) length: u32,
    pub(crate) moved: bool,
}

// One pass; or the first section that is too narrow, at which it stops. Not inlined: among the other walks of settling its loop lacks registers.
#[inline(never)]
fn make_pass(store: UndamagedStore, table: &mut [u32]) -> Result<Pass, u32>
    requires { MarksFit (sections_in store) (length table.old) }
    ensures { walked result table.new ≡ pass (sections_in store.entry) table.old }
{
    let mut length: u32 = 0;
    let mut moved = false;
    for i in 0..store.counts.sections {
        let section = store.section(i);
        if section.kind == kind::MARK {
            moved |= move_mark(table, MarkId(section.first), length);
        } else {
            let Some(size) = size_in(section, table) else {
                return Err(i);
            };
            length += size;
        }
    }
    Ok(Pass { length, moved })
}

// The passes from a table on. Refusals: 10 too narrow, 11 unsettled, with the table all 0.
pub(crate) fn run_passes(store: UndamagedStore, table: &mut [u32]) -> Result<LaidOut, Refusal>
    requires { MarksFit (sections_in store) (length table.old) }
    ensures reply { result
        ≡ passes_reply (passes max_passes 1 (sections_in store.entry) table.old) }
    ensures table { table.new
        ≡ passes_table (length table.old)
        (passes max_passes 1 (sections_in store.entry) table.old) }
{
    for passes in 1..=MAX_PASSES {
        let pass = match make_pass(store, table) {
            Ok(pass) => pass,
            Err(section) => return refuse(table, Refusal::TooNarrow { section, passes }),
        };
        if !pass.moved {
            return Ok(LaidOut {
                length: pass.length,
                passes,
            });
        }
    }
    refuse(table, Refusal::Unsettled)
}
