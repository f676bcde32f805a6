// Opcode numbers and push sizes (op.rs; the Yellow Paper, appendix H.2, and EIP-3855), and landing. The definitions of what opcodes do
// are in specs/YellowPaper.
#![tactic(auto)]

pub mod landing;
pub mod op;
