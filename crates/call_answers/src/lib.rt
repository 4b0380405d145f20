// What the calls load, extract, exchange, print, merge, project and put answer, and which definition that is; and demand 3 from those
// contracts alone. The calls themselves are the crates `call_load`, `call_extract`, `call_exchange`, `call_print`, `call_merge` and
// `call_project`. Public for users.
#![tactic(auto)]

pub mod answers;
