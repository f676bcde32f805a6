// Document 01, module 2: the store's two counts and their limits, one section read from its words, put into words or written, and the
// tests for number 6. Knows nothing of offset tables or passes.
#![tactic(auto)]

mod damage;
pub mod kind;
mod record;

ghost use Rattle.std.specs.Prelude.{◌≡◌};
ghost use Rattle.records.specs.Store.{empty_counts};

pub use damage::{Damage, check_last, check_store};
pub use record::{
    AsmSection, StoredSection, form_of, read_section, reference_words, set_size_of, write_words,
};

// A store: the count of sections and the count of stored bytes, over a lent byte slice and a lent slice of words.
#[derive(Clone, Copy)]
pub struct Assembler {
    pub sections: u32,
    pub bytes: u32,
}

impl Assembler {
    pub const MAX_BYTES: u32 = 16777216;

    pub const MAX_SECTIONS: u32 = 1048576;

    pub const MAX_MARK: u32 = 1048575;
    // Words of the lent slice for each section.
    pub const WORDS: usize = 3;

    // An empty store.
    pub fn new() -> Self
        ensures { result ≡ empty_counts }
    {
        Assembler {
            bytes: 0,
            sections: 0,
        }
    }

    // Both counts to 0, from any state.
    pub fn clear(self) -> Self
        ensures { result ≡ empty_counts }
    {
        Assembler::new()
    }
}
