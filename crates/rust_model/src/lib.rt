// The original Rust as a definition on lists, in specs/, and demand 2: on every list of building calls it and this assembler agree.
// Definitions and theorems alone. No code.
#![tactic(auto)]
