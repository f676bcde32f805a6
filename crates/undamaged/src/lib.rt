// A store that the test for 6 has found undamaged, as a value: every walk of settling, of the tests of a table, of assembly and of the
// listing takes one. Beside it theorems on such a store: the whole test as plain facts, and what its sections are read as.
#![tactic(auto)]

mod store;

pub use store::UndamagedStore;
