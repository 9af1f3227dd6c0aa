// Orders: the check that every tool makes of one, and the inverse.
#![tactic(auto)]

ghost use Rattle.std.specs.Prelude.{◌≤◌, ◌≡◌};
ghost use Rattle.kinds.specs.Answers.{Checks};
ghost use Rattle.kinds.specs.Edition.{edition1, SizedN, Sized};
ghost use Rattle.kinds.specs.Decisions.{sized_n?, sized?};
ghost use Rattle.kinds.specs.Sizes.{AreSizes};
ghost use Rattle.span.specs.Tools.{most_scanned};
ghost use Rattle.order.specs.Table.{order_table};
ghost use Rattle.order.specs.Tools.{Inverts};
ghost use Rattle.order.specs.Inside.{Few, ChecksColumns, ChecksAndScans, UndoesHeld};

use kinds::{Refusal, Sizes};
use span::Scan;

// Of an order without k: 1 to 4. `fits` says whether every other length that the tool was lent is right.
pub fn check(n: u32, columns: &[u16], fits: bool) -> Result<(), Refusal>
    ensures { Checks (order_table (SizedN edition1 n) (sized_n? edition1 n) n columns.now) fits result }
{
    check_and_scan(n, columns, fits)?;
    Ok(())
}

// Of an order with k: 1 to 4, and the sizes where none applies.
pub fn check_with_k(n: u32, k: u32, columns: &[u16], fits: bool) -> Result<Sizes, Refusal>
    ensures answer { Checks (order_table (Sized edition1 n k) (sized? edition1 n k) n columns.now) fits result }
    ensures sizes { AreSizes n k result }
{
    let sizes = Sizes::new(n, k)?;
    check_columns(n, columns, fits)?;
    Ok(sizes)
}

// 1 to 4, and the scan of the columns where none applies.
fn check_and_scan(n: u32, columns: &[u16], fits: bool) -> Result<Scan, Refusal>
    ensures { ChecksAndScans n columns.now fits result }
{
    if !kinds::sized_n(n) {
        return Err(Refusal::Sizes);
    }
    check_columns(n, columns, fits)
}

// 2 to 4, and the scan of the columns where none applies.
fn check_columns(n: u32, columns: &[u16], fits: bool) -> Result<Scan, Refusal>
    requires { n ≤ most_scanned }
    ensures { ChecksColumns n columns.now fits result }
{
    if !fits || columns.len() != n as usize {
        return Err(Refusal::Length);
    }
    if !bits::within_bits(columns, n) {
        return Err(Refusal::TooLarge);
    }
    let scanned = span::scan_all(columns);
    if let Some(sum) = rows::first_sum(&scanned.masks[..columns.len()]) {
        return Err(Refusal::Dependent(sum.at, sum.mask));
    }
    Ok(scanned.scan)
}

// The columns of the order that brings every word home. 1 to 4.
pub fn inverse(n: u32, columns: &[u16], out: &mut [u16]) -> Result<(), Refusal>
    ensures { Inverts edition1 n columns.now out.old out.new result }
{
    let fits = out.len() == n as usize;
    let scan = check_and_scan(n, columns, fits)?;
    write_inverse(scan, out);
    Ok(())
}

// Column b of the inverse is the mask of 2^b.
fn write_inverse(scan: Scan, out: &mut [u16])
    requires { Few out.old }
    ensures { UndoesHeld scan out.old out.new }
{
    for (b, column) in out.iter_mut().enumerate() {
        let unit = bits::two_to(b as u32) as u16;
        *column = scan.mask_of(unit).unwrap_or(0);
    }
}
