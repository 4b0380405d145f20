// Writing plans: expressions whose columns get other indexes, tables of new column indexes, heads, and predicates.
#![tactic(auto)]

pub mod arguments;
pub mod column_tables;
pub mod frame_heads;
pub mod put_predicate;
pub mod records;
