// A store found undamaged, and its sections.
ghost use Rattle.std.specs.Prelude.{◌≡◌, ◌<◌, IfOk};
ghost use Rattle.records.specs.Store.{store_of, words_per_section, words_at};
ghost use Rattle.records.specs.Damage.{soundness_of, whole_soundness};
ghost use Rattle.undamaged.specs.View.{Undamaged};

use records::{Assembler, Damage, StoredSection, check_store};

// The store's counts, with the bytes and the words that it stands on. It is made by `check`, or by its fields where they are proved to be
// undamaged, so that no walk tests it again.
#[derive(Clone, Copy)]
pub struct UndamagedStore<'a> {
    pub counts: Assembler,
    pub bytes: &'a [u8],
    pub words: &'a [u32],
    pub ghost undamaged: { Undamaged words_per_section (store_of counts bytes.now words.now) },
}

impl<'a> UndamagedStore<'a> {
    // The store, or the section that number 6 reports.
    pub fn check(
        counts: Assembler,
        bytes: &'a [u8],
        words: &'a [u32],
    ) -> Result<UndamagedStore<'a>, Damage>
        ensures soundness { soundness_of result
            ≡ whole_soundness words_per_section (store_of counts bytes.now words.now) }
        ensures store { IfOk result (λ store. (store.counts ≡ counts) × (store.bytes.now ≡ bytes.now)
            × (store.words.now ≡ words.now)) }
    {
        check_store(counts, bytes, words)?;
        Ok(UndamagedStore {
            counts,
            bytes,
            words,
        })
    }

    // The three words of section i.
    // Kept: no Option past the last section, and walks by index, since each walk stays below the count and most need the index for a refusal.
    pub fn section(self, i: u32) -> StoredSection
        ensures { i < self.entry.counts.sections → result ≡ words_at words_per_section self.entry.words.now i }
    {
        if i >= self.counts.sections {
            return StoredSection {
                kind: 0,
                first: 0,
                second: 0,
            };
        }
        let at = Assembler::WORDS * i as usize;
        StoredSection {
            kind: self.words[at],
            first: self.words[at + 1],
            second: self.words[at + 2],
        }
    }
}
