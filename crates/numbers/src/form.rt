// The form of a reference: set size plus 8 if pushed, as in document 01's words of a direct reference.
ghost use Rattle.std.specs.Prelude.{◌≡◌, ◌%◌, leb};
ghost use Rattle.records.specs.Record.{set_size_of};
ghost use Rattle.numbers.specs.Forms.{form_of, formed, is_form, form_kind};

use records::{kind, set_size_of};
use units::form::{MAX, MAX_SIZE, PUSHED};
use units::{AsmReference, MarkReference, RefSize};

// What a form names: a set size, none if unsized, and whether the reference is pushed.
#[derive(Clone, Copy, Debug, PartialEq, Eq)]
pub struct Form {
    pub set_size: Option<RefSize>,
    pub pushed: bool,
}

// The form of a number, if it is one.
#[tactic(auto, using(crate::proofs::Forms::form_raw, crate::proofs::Forms::form_pushed, crate::proofs::Forms::form_between, crate::proofs::Forms::form_above))]
pub fn form_of(form: u32) -> Option<Form>
    ensures { result ≡ form_of form }
{
    match form {
        0..=4 => Some(Form {
            set_size: set_size_of(form),
            pushed: false,
        }),
        8..=12 => Some(Form {
            set_size: set_size_of(form - PUSHED),
            pushed: true,
        }),
        _ => None,
    }
}

// A form that names something.
pub fn is_form(form: u32) -> bool
    ensures { result ≡ is_form form }
{
    if form <= MAX_SIZE {
        return true;
    }
    if form < PUSHED {
        return false;
    }
    form <= MAX
}

// The kind word of a delta of a form.
pub fn delta_kind(form: u32) -> u32
    ensures { result ≡ form_kind form }
{
    if form < PUSHED {
        return form + kind::RAW_DELTA;
    }
    form - PUSHED + kind::PUSHED_DELTA
}

// A reference to these marks in a form.
pub fn formed(mark_ref: MarkReference, form: u32) -> AsmReference
    ensures { result ≡ formed mark_ref (set_size_of (form % 8)) (leb 8 form) }
{
    AsmReference {
        mark_ref,
        set_size: set_size_of(form % PUSHED),
        pushed: PUSHED <= form,
    }
}
