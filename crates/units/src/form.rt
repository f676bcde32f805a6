// A reference's form as one number, set size (0 unsized) plus 8 if pushed, and the width rule by it: for walks over stored words, which
// have the form and make no reference of it. Any number is answered.
ghost use Rattle.std.specs.Prelude.{◌≡◌, ◌≤◌};
ghost use Rattle.units.specs.Numbers.{held_bytes};
ghost use Rattle.units.specs.Form.{least_by_form, count_by_form, push_zero_by_form, size_by_form};

// Kept: a form is a number, as the words of a section and C have it; `AsmReference` and, of a number, `Form` (numbers) say it by fields.

// The greatest set size: the forms of raw references are 0 to 4.
pub const MAX_SIZE: u32 = 4;

// What a pushed reference's form has above its set size.
pub const PUSHED: u32 = 8;

// The greatest form.
pub const MAX: u32 = 12;

// The least size.
#[tactic(auto, unfolding(crate::specs::Form::least_by_form))]
pub fn least_size(form: u32) -> u32
    ensures { result ≡ least_by_form form }
{
    let size = form % PUSHED;
    if size == 0 {
        return 1;
    }
    size + form / PUSHED
}

// The bytes that hold a value, as a number. By sums and not by `bytes_to_hold`: a processor guesses a branch on the value wrong where
// offsets lie on both sides of a boundary (docs/PERFORMANCE.md: assembly takes up to half as long again).
fn held_bytes(value: u32) -> u32
    ensures { (result ≡ held_bytes value) × (result ≤ 4) }
{
    let above_one = (0xff < value) as u32;
    let above_two = (0xffff < value) as u32;
    let above_three = (0xffffff < value) as u32;
    1 + above_one + above_two + above_three
}

// The bytes that a value is written in.
#[tactic(auto, unfolding(crate::specs::Form::count_by_form))]
pub fn byte_count(form: u32, value: u32) -> u32
    ensures { result ≡ count_by_form form value }
{
    let size = form % PUSHED;
    if size == 0 {
        return held_bytes(value);
    }
    size
}

// Whether a value is pushed as PUSH0.
#[tactic(auto, unfolding(crate::specs::Form::push_zero_by_form))]
pub fn is_push_zero(form: u32, value: u32) -> bool
    ensures { result ≡ push_zero_by_form form value }
{
    form == PUSHED && value == 0
}

// The size for a value: the set size or the held bytes, and one byte more if pushed; PUSH0 for an unsized pushed 0. None if the set size is
// below the value's held bytes.
#[tactic(auto, unfolding(crate::specs::Form::size_by_form))]
pub fn size_for(form: u32, value: u32) -> Option<u32>
    ensures { result ≡ size_by_form form value }
{
    let held = held_bytes(value);
    let size = form % PUSHED;
    if size == 0 {
        if value == 0 {
            return Some(1);
        }
        return Some(held + form / PUSHED);
    }
    if size < held {
        return None;
    }
    Some(size + form / PUSHED)
}
