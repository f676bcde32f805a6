// Document 01, module 3: settling. The definitions of layouts, passes and conditions are in specs/, the shortest layout in proofs/.
#![tactic(auto)]
