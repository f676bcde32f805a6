// No code: proofs/ relates the op bytes that the store's calls add (store, specs/Calls) to the Yellow Paper's instructions (evm,
// specs/YellowPaper). The theorems stand in proofs/Instructions.
#![tactic(auto)]
