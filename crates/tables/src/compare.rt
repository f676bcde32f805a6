// The walk for 7, 16, 10 and 12 together, by the lent table; it puts the marks that are placed into the map.
ghost use Rattle.std.specs.Prelude.{◌≡◌, length, replicate};
ghost use Rattle.settling.specs.SectionWalk.{sections_in};
ghost use Rattle.tables.specs.MarkMap.{Covers};
ghost use Rattle.tables.specs.TableWalk.{ComparedTo, earlier};

use crate::map::MarkMap;
use records::kind;
use settling::{entry_of, is_backward, is_short, size_of};
use undamaged::UndamagedStore;
use units::MarkId;

// What the walk tells of a table that agrees with the sections: the sum of sizes, and the first backward delta.
#[derive(Clone, Copy)]
pub(crate) struct Agreed {
    pub(crate) length: u32,
    pub(crate) backward: Option<u32>,
}

// The walk. Err: the first section that is a 7, a 16 or a 10, with the marks placed before it put into the map.
pub(crate) fn compare<const BYTES: usize>(
    store: UndamagedStore,
    table: &[u32],
    map: &mut MarkMap<BYTES>,
) -> Result<Agreed, u32>
    requires covers { Covers (length table.now) BYTES }
    requires empty { map.old.bits ≡ replicate BYTES 0 }
    ensures { ComparedTo table.now (sections_in store.entry) map.new.bits result }
{
    let limit = table.len();
    let mut sum: u32 = 0;
    let mut backward = None;
    for i in 0..store.counts.sections {
        let section = store.section(i);
        if is_short(section, limit) {
            return Err(i);
        }
        if section.kind == kind::MARK {
            if entry_of(table, MarkId(section.first)) != sum {
                return Err(i);
            }
            map.insert(MarkId(section.first));
        } else {
            let Some(size) = size_of(section, table) else {
                return Err(i);
            };
            sum += size;
            backward = earlier(backward, i, is_backward(section, table));
        }
    }
    Ok(Agreed {
        length: sum,
        backward,
    })
}

// What was found, or else section i if it is one.
fn earlier(found: Option<u32>, i: u32, is_one: bool) -> Option<u32>
    ensures { result ≡ earlier found i is_one }
{
    if is_one { found.or(Some(i)) } else { found }
}
