// Document 01, module 1: mark numbers and byte positions, set sizes, references, and the size of a reference for a value;
// and 'Replies', the refusals. Knows nothing of stored words, offset tables or passes.
#![tactic(auto)]

pub mod form;
mod reply;

ghost use Rattle.std.specs.Prelude.{◌≡◌, ◌≤◌};
ghost use Rattle.units.specs.Numbers.{held_bytes};
ghost use Rattle.units.specs.Reference.{ref_size_bytes, unsized_pushed, least_size, size_for};
ghost use Rattle.units.specs.Form.{size_number, form_number};

pub use reply::{LaidOut, MAX_PASSES, Refusal};

// The number of a mark. A store takes 0 to 1,048,575.
#[derive(Clone, Copy, Debug, PartialEq, Eq)]
pub struct MarkId(pub u32);

// A position in a store's bytes.
#[derive(Clone, Copy, Debug, PartialEq, Eq)]
pub struct AsmBytesIdx(pub u32);

// Of positions, the bytes from start up to and without end; of marks, the two marks of a delta.
#[derive(Clone, Copy, Debug, PartialEq, Eq)]
pub struct Span<T> {
    pub start: T,
    pub end: T,
}

// A number of bytes that a value is written in.
#[derive(Clone, Copy, Debug, PartialEq, Eq)]
pub enum RefSize {
    S1 = 1,
    S2 = 2,
    S3 = 3,
    S4 = 4,
}

// What a reference's value is read from: one mark's offset, or the end mark's offset minus the start mark's.
#[derive(Clone, Copy, Debug, PartialEq, Eq)]
pub enum MarkReference {
    Direct(MarkId),
    Delta(Span<MarkId>),
}

// A reference: what it refers to, its set size, none if unsized, and whether it is pushed.
#[derive(Clone, Copy, Debug, PartialEq, Eq)]
pub struct AsmReference {
    pub mark_ref: MarkReference,
    pub set_size: Option<RefSize>,
    pub pushed: bool,
}

// The least number of bytes that hold a value.
#[tactic(auto, using(crate::proofs::Held::held_1, crate::proofs::Held::held_2, crate::proofs::Held::held_3, crate::proofs::Held::held_4))]
pub fn bytes_to_hold(offset: u32) -> RefSize
    ensures { ref_size_bytes result ≡ held_bytes offset }
{
    match offset {
        0x00..=0xff => RefSize::S1,
        0x100..=0xffff => RefSize::S2,
        0x10000..=0xffffff => RefSize::S3,
        0x1000000..=0xffffffff => RefSize::S4,
    }
}

impl RefSize {
    // The size as a number, 1 to 4.
    pub fn bytes(self) -> u32
        ensures { (result ≡ ref_size_bytes self) × (result ≤ 4) }
    {
        self as u32
    }
}

// A set size as a number, 0 if unsized.
// Kept: no `From`, since an Option is no type of this crate's.
pub fn set_size_number(set_size: Option<RefSize>) -> u32
    ensures { (result ≡ size_number set_size) × (result ≤ 4) }
{
    set_size.map_or(0, RefSize::bytes)
}

impl AsmReference {
    // An unsized pushed reference to a mark's offset.
    pub fn new_direct(id: MarkId) -> Self
        ensures { result ≡ unsized_pushed (MarkReference.Direct id) }
    {
        Self::pushed(MarkReference::Direct(id))
    }

    // An unsized pushed reference to end's offset minus start's.
    pub fn new_delta(start: MarkId, end: MarkId) -> Self
        ensures { result ≡ unsized_pushed (MarkReference.Delta (record { start = start; end = end })) }
    {
        Self::pushed(MarkReference::Delta(Span { start, end }))
    }

    // An unsized pushed reference.
    pub fn pushed(mark_ref: MarkReference) -> Self
        ensures { result ≡ unsized_pushed mark_ref }
    {
        Self {
            mark_ref,
            set_size: None,
            pushed: true,
        }
    }

    // The form as a number: set size (0 unsized) plus 8 if pushed.
    pub fn form(self) -> u32
        ensures { result ≡ form_number self }
    {
        let size = set_size_number(self.set_size);
        if self.pushed {
            size + form::PUSHED
        } else {
            size
        }
    }

    // The least size, which no value goes below.
    #[tactic(auto, using(crate::proofs::Forms::least_form))]
    pub fn least_size(self) -> u32
        ensures { result ≡ least_size self }
    {
        form::least_size(self.form())
    }

    // The size for a value: the set size or the held bytes, and one byte more if pushed; PUSH0 for an unsized pushed 0. None if the set
    // size is below the value's held bytes.
    #[tactic(auto, using(crate::proofs::Forms::size_form))]
    pub fn size_for(self, value: u32) -> Option<u32>
        ensures { result ≡ size_for self value }
    {
        form::size_for(self.form(), value)
    }
}
