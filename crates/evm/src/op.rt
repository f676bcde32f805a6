// Opcodes as op.rs has them: the numbers that are used elsewhere, and the push size of every byte. Their names are the crate
// `opcodes`.
ghost use Rattle.std.specs.Prelude.{◌≡◌};
ghost use Rattle.evm.specs.YellowPaper.{instruction_length};
ghost use Rattle.evm.specs.Opcodes.{op_push_size};

pub const JUMPDEST: u8 = 0x5b;

// The opcodes that the store's calls push.
pub const PUSH0: u8 = 0x5f;

pub const DUP1: u8 = 0x80;

pub const SWAP1: u8 = 0x90;

// The bytes of immediate after a push, 1 to 32: PUSH1 to PUSH32 have their size; PUSH0 and every other byte is no push.
#[tactic(auto, using(crate::proofs::Opcodes::push_sized, crate::proofs::Opcodes::push_below, crate::proofs::Opcodes::push_above))]
pub fn push_size(opcode: u8) -> Option<u8>
    ensures { result ≡ op_push_size opcode }
{
    match opcode {
        0x60..=0x7f => Some(opcode - 0x60 + 1),
        _ => None,
    }
}

// The bytes of an instruction in all: the opcode and its immediate.
pub fn instruction_length(opcode: u8) -> usize
    ensures { result ≡ instruction_length opcode }
{
    match push_size(opcode) {
        Some(n) => 1 + usize::from(n),
        None => 1,
    }
}
