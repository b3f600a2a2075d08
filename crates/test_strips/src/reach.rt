// Cells from which references lead to a cell. What is expected is worked out by hand.

use crate::written::{area, cell};
use cell_refs::{Area, Cell, SheetId, TEXTS};
use column_strips::{Marks, ReferenceTable};
use std::alloc::Global;
use std::test::Fail;

// Keeps one area for a cell, where there is room.
fn put(alloc: Global, table: &mut ReferenceTable, of: Cell, area: Area) -> Result<(), Fail> {
    let mut areas = Vec::new(alloc);
    areas.push(area)?;
    if table.len() >= TEXTS {
        return Err(Fail::new("no room"));
    }
    Ok(table.put(of, areas)?)
}

#[test]
fn sums_of_a_column(rt: HostRuntime) -> Result<(), Fail> {
    let alloc = rt.alloc();
    let column = area(cell(0, 0), cell(0, 3999))?;
    let mut table = ReferenceTable::of(alloc, Vec::new(alloc))?;
    for row in 0..4000 {
        for col in 1..5 {
            put(alloc, &mut table, cell(col, row), column)?;
        }
    }
    assert_eq!(rt; table.strips(SheetId(0), 0).len(), 16000);
    assert_eq!(rt; table.strips(SheetId(0), 1).len(), 0);
    let mut marks = Marks::new(alloc)?;
    table.affected(cell(0, 0), &mut marks);
    assert_eq!(rt; marks.len(), 16001);
    Ok(())
}
