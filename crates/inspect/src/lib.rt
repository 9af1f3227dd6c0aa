// The inspector: from an order and a sheet to a verdict (01, 'When a tool says no').
#![tactic(auto)]

ghost use Rattle.kinds.specs.Edition.{edition1};
ghost use Rattle.inspect.specs.Tool.{Inspects, OpensPassed};
ghost use Rattle.inspect.specs.Inside.{Comparable, Agrees, Judgeable, Judges};

use kinds::{Refusal, Sizes};
use maps::{OpenSide, Sides};

// Passed, or the lowest of 1 to 9 that applies.
pub fn inspect(n: u32, k: u32, columns: &[u16], sheet: &[u16]) -> Result<(), Refusal>
    ensures { Inspects edition1 n k columns.now sheet.now result }
{
    open_passed(n, k, columns, sheet)?;
    Ok(())
}

// The inspector, which hands on the sides of a sheet that it passed.
pub fn open_passed(n: u32, k: u32, columns: &[u16], sheet: &[u16]) -> Result<Sides, Refusal>
    ensures { OpensPassed edition1 n k columns.now sheet.now result }
{
    let fits = sheet.len() == sheet::SHEET;
    let sizes = order::check_with_k(n, k, columns, fits)?;
    let sides = maps::open(n, k, sheet, true)?;
    judge(sizes, columns, &sides)?;
    Ok(sides)
}

// 6 to 9. A linear map of m bits is invertible exactly when its m columns are independent.
fn judge(sizes: Sizes, columns: &[u16], sides: &Sides) -> Result<(), Refusal>
    requires { Judgeable sizes.n columns.now }
    ensures { Judges sizes.n sizes.k columns.now sides.now.write sides.now.read result }
{
    let port_bits = sizes.k as usize;
    let word_bits = sizes.n as usize;
    let write_wiring = sides.write.wiring();
    if !span::independent(&write_wiring[..port_bits]) {
        return Err(Refusal::WriteWiring);
    }
    let read_wiring = sides.read.wiring();
    if !span::independent(&read_wiring[..port_bits]) {
        return Err(Refusal::ReadWiring);
    }
    let cells = sides.write.columns();
    let own_cells = span::independent(&cells[..word_bits]);
    let in_order = agree(sizes.k, columns, &cells[..word_bits], &sides.read);
    if !own_cells {
        return Err(Refusal::SharedCell);
    }
    if !in_order {
        return Err(Refusal::Differs);
    }
    Ok(())
}

// Whether M, of which the columns are lent, is N P. Both are linear, so the words 2^j tell: word 2^j leaves at place `columns[j]`, which has a tick and a port.
fn agree(k: u32, columns: &[u16], cells: &[u16], read: &OpenSide) -> bool
    requires { Comparable k columns.now cells.now }
    ensures { Agrees k columns.now cells.now read.now result }
{
    for (j, column) in columns.iter().enumerate() {
        let slot = switches::slot_of(u32::from(*column), k);
        if read.cell(slot) != cells[j] {
            return false;
        }
    }
    true
}
