// The planner: from an order to its sheet (01, 'The planner's choices').
#![tactic(auto)]

ghost use Rattle.std.specs.Prelude.{◌≡◌};
ghost use Rattle.kinds.specs.Answers.{Says};
ghost use Rattle.kinds.specs.Edition.{edition1};
ghost use Rattle.order.specs.Order.{Order};
ghost use Rattle.construction.specs.Planned.{StagesInRange, read_stages_of};
ghost use Rattle.plan.specs.Tool.{Plans, PlansWith};

use chosen::Chosen;
use kinds::{Refusal, Sizes};
use sheet::{Stage, Stages};

mod chosen;

// The sheet for an order. 1 to 4.
pub fn plan(n: u32, k: u32, columns: &[u16], sheet: &mut [u16]) -> Result<(), Refusal>
    ensures { Plans edition1 n k columns.now sheet.old sheet.new result }
{
    let fits = sheet.len() == sheet::SHEET;
    let sizes = order::check_with_k(n, k, columns, fits)?;
    let read = read_stages(sizes, columns);
    let chosen = Chosen {
        sizes,
        columns,
        read: &read,
    };
    chosen.write_sheet(sheet);
    Ok(())
}

// The sheet with these read stages, and the write side that goes with them. 1 to 4, and 5 where a stage is out of its range.
pub fn plan_with(
    n: u32,
    k: u32,
    columns: &[u16],
    read: &Stages,
    sheet: &mut [u16],
) -> Result<(), Refusal>
    ensures { PlansWith edition1 n k read.now.items columns.now sheet.old sheet.new result }
{
    let whole = sheet.len() == sheet::SHEET;
    let sizes = order::check_with_k(n, k, columns, whole)?;
    if !in_range(sizes, read.as_slice()) {
        return Err(Refusal::Layout);
    }
    let chosen = Chosen {
        sizes,
        columns,
        read,
    };
    chosen.write_sheet(sheet);
    Ok(())
}

// Whether each direction is from 1 to 2^k - 1, each control from 1 to 2^t - 1.
fn in_range(sizes: Sizes, stages: &[Stage]) -> bool
    ensures { Says result (StagesInRange sizes.n sizes.k stages.now) }
{
    let ports = sizes.ports();
    let ticks = sizes.ticks();
    stages
        .iter()
        .all(|stage| sheet::in_range(*stage, ports, ticks))
}

// The rows of P1 and then those of P3 are the rows of the first k columns, and one scan goes over both: on the ports that P1 sends to 0, the sums of rows that vanish
// are exactly the sums of rows of P1. There are as many others of P1 as there are kept of P3.
fn read_stages(sizes: Sizes, columns: &[u16]) -> Stages
    requires { Order sizes.n columns.now }
    ensures { result.items ≡ read_stages_of sizes.n sizes.k columns.now }
{
    let port_bits = sizes.k as usize;
    let word_bits = sizes.n as usize;
    let rows = rows::rows_of(&columns[..port_bits], word_bits);
    let masks = rows::masks_of(&rows[..word_bits]);
    let directions = rows::list_rows(&masks, 0, port_bits, false);
    let controls = rows::list_rows(&masks, port_bits, word_bits, true);
    lay::pair_up(directions.as_slice(), controls.as_slice())
}
