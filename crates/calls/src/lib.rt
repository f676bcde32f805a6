// Document 01, module 2: the building calls as definitions, in specs/; their laws, for every store, and the list view are in proofs/.
#![tactic(auto)]
