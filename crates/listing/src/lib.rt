// Document 01, module 5: the listing of a store (display.rs), `write_asm`. The lines themselves are put by `lines`.
// Kept: the public calls take counts, bytes and words apart, as docs/CLAIMS.md and C have them; the functions inside take an `UndamagedStore`.
#![tactic(auto)]

mod sections;

ghost use Rattle.std.specs.Prelude.{◌≡◌};
ghost use Rattle.records.specs.Store.{store_of, words_per_section};
ghost use Rattle.listing.specs.Answer.{listed_reply, listing_reply, listing_buffer};
ghost use Rattle.listing.specs.Room.{store_in};

use records::Assembler;
use sections::write_store;
use undamaged::UndamagedStore;
use units::Refusal;

// Writes the listing to the text's start, and answers its length. Refusals: 6 damaged, 14 listing full. Refused, the text is as it was;
// else so are the bytes after the listing.
pub fn write_asm(
    store: Assembler,
    bytes: &[u8],
    words: &[u32],
    text: &mut [u8],
) -> Result<usize, Refusal>
    ensures answer { listed_reply result
        ≡ listing_reply words_per_section (store_of store bytes.now words.now) text.old }
    ensures written { text.new
        ≡ listing_buffer words_per_section (store_of store bytes.now words.now) text.old }
{
    let store = UndamagedStore::check(store, bytes, words)?;
    write_sound(store, text)
}

// The listing of an undamaged store. Its length is known before the first byte is written: the same walk counts it, on an empty text.
fn write_sound(store: UndamagedStore, text: &mut [u8]) -> Result<usize, Refusal>
    ensures answer { listed_reply result ≡ listing_reply words_per_section (store_in store.entry) text.old }
    ensures written { text.new ≡ listing_buffer words_per_section (store_in store.entry) text.old }
{
    let length = write_store(&mut [], store);
    if text.len() < length {
        return Err(Refusal::ListingFull);
    }
    write_store(text, store);
    Ok(length)
}
