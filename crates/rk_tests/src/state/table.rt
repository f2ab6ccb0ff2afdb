//! An allocation past all memory.
use crate::same::same;
use rk_table::Table;
use std::alloc::{AllocError, Global};
use std::test::Fail;

/// Key 7, with the value 70.
fn one(alloc: Global) -> Result<Table<u8>, AllocError> {
    let mut table: Table<u8> = Table::new(alloc);
    table.reserve(1)?;
    if table.get(7).is_none() {
        table.insert(7, 70);
    }
    Ok(table)
}

/// It is refused, and what was there is there still.
#[test]
fn a_growth_past_all_memory_is_refused(rt: HostRuntime) -> Result<(), Fail> {
    let mut table = one(rt.alloc())?;
    same(&rt, table.reserve(usize::MAX), Err(AllocError));
    same(&rt, (table.get(7).copied(), table.len()), (Some(70), 1));
    Ok(())
}
