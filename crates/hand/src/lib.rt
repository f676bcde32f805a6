// 'Layouts tried by hand' (document 01) and other examples: theorems alone, in proofs/.
#![tactic(auto)]
