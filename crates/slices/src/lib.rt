// Slices and lists as both wings use them: bytes copied over others, and in specs/ the first number that passes a test.
#![tactic(auto)]

ghost use Rattle.std.specs.Prelude.{◌≡◌, ◌+◌, ◌≤◌, length};
ghost use Rattle.slices.specs.Over.{over, over_if_room};

// Copies bytes over others from an index on, if there is room for them; else nothing changes.
#[tactic(auto, using(crate::proofs::Over::has_room, crate::proofs::Over::no_room))]
pub fn write_bytes(bytes: &mut [u8], at: usize, added: &[u8])
    ensures { bytes.new ≡ over_if_room bytes.old at added.now }
{
    if at <= bytes.len() {
        if added.len() <= bytes.len() - at {
            copy_bytes(bytes, at, added);
        }
    }
}

// Kept: byte by byte, since `copy_from_slice` of a count that the compiler doesn't know calls `memcpy`: for 1 to 4 bytes it took 1.48 of the time.
#[tactic(auto, using(std::proofs::lemmas::List::Edits::paste_more))]
fn copy_bytes(bytes: &mut [u8], at: usize, added: &[u8])
    requires { at + length added.now ≤ length bytes.old }
    ensures { bytes.new ≡ over bytes.old at added.now }
{
    for i in 0..added.len() {
        bytes[at + i] = added[i];
    }
}
