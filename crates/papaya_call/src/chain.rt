//! Calls over a chain of tables.
//!
//! A call of `papaya_call` goes from table to table. If it needs the next one it is set aside here:
//! the next table is made, or the root is copied for a while. Then the call continues in the next
//! table. Clear, retain and iterations scan a whole table (`scanner`). Without `Blocking`
//! everything is copied first, and they scan the table in which the copy ended. No call waits for
//! another caller.

pub mod ask;
pub mod machine;
pub mod resizer;
pub mod scanner;
