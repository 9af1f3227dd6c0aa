// The sheet that goes with an order and some read stages.
ghost use Rattle.std.specs.Prelude.{◌≡◌, ◌≤◌, length, take};
ghost use Rattle.kinds.specs.Edition.{edition1};
ghost use Rattle.bits.specs.Padded.{array_width};
ghost use Rattle.order.specs.Order.{Order};
ghost use Rattle.switches.specs.Written.{kept_stages_of};
ghost use Rattle.construction.specs.Planned.{StagesInRange};
ghost use Rattle.plan.specs.Inside.{stages_in_range_prop};

use arrayvec::ArrayVec;
use bits::WIDTH;
use kinds::{Bank, Sizes};
use sheet::{Stage, Stages};

// An order, and the read stages that were chosen for its sheet.
#[derive(Clone, Copy)]
pub struct Chosen<'a> {
    pub sizes: Sizes,
    pub columns: &'a [u16],
    pub read: &'a Stages,
    ghost order: { Order sizes.n columns.now },
    ghost few: { length read.now.items ≤ edition1.most_stages },
    ghost in_range: { StagesInRange sizes.n sizes.k read.now.items } by { stages_in_range_prop sizes.n sizes.k read.now.items },
}

impl Chosen<'_> {
    ghost use Rattle.std.specs.Prelude.{◌≡◌, ◌≤◌, length, map, take};
    ghost use Rattle.kinds.specs.Edition.{edition1, side_places, sheet_places};
    ghost use Rattle.kinds.specs.Frame.{tick_of};
    ghost use Rattle.sheet.specs.Sheet.{laid_out};
    ghost use Rattle.construction.specs.Planned.{read_with, write_with, sheet_with};
    ghost use Rattle.plan.specs.Inside.{bank_through};

    pub(crate) fn write_sheet(&self, sheet: &mut [u16])
        requires { length sheet.old ≡ sheet_places edition1 }
        ensures { sheet.new ≡ sheet_with edition1 self.now.sizes.n self.now.sizes.k self.now.read.now.items self.now.columns.now }
    {
        let (write_side, read_side) = sheet.split_at_mut(sheet::SIDE);
        self.lay_read_side(read_side);
        self.lay_write_side(write_side);
    }

    // "Address is the tick, wiring the identity" (01).
    fn lay_read_side(&self, side: &mut [u16])
        requires { length side.old ≡ side_places edition1 }
        ensures { side.new ≡ laid_out edition1 (read_with self.now.sizes.n self.now.sizes.k self.now.read.now.items) }
    {
        let port_bits = self.sizes.k as usize;
        let word_bits = self.sizes.n as usize;
        let addresses = rows::unit_columns(port_bits, word_bits);
        let wiring = rows::unit_columns(0, port_bits);
        lay::lay_out(
            &addresses[..word_bits],
            &wiring[..port_bits],
            self.read,
            side,
        );
    }

    // M = N P, column by column: the cell that the place is read from. The banks of the first k are the wiring.
    fn lay_write_side(&self, side: &mut [u16])
        requires { length side.old ≡ side_places edition1 }
        ensures { side.new ≡ laid_out edition1 (write_with self.now.sizes.n self.now.sizes.k self.now.read.now.items self.now.columns.now) }
    {
        let addresses = self.addresses();
        let banks = self.banks();
        let (wiring, switched) = banks.as_slice().split_at(self.sizes.k as usize);
        let write = kept_stages(switched);
        lay::lay_out(addresses.as_slice(), wiring, &write, side);
    }

    // The addresses that the places of the columns are read from: "address is the tick" (01).
    fn addresses(&self) -> ArrayVec<u16, WIDTH>
        ensures { result.items ≡ map (tick_of self.now.sizes.k) self.now.columns.now }
    {
        let mut addresses = ArrayVec::new();
        for place in self.columns {
            let slot = switches::slot_of(u32::from(*place), self.sizes.k);
            addresses.push(slot.tick.0 as u16);
        }
        addresses
    }

    // Their banks: "wiring the identity" (01), and then come the stages.
    fn banks(&self) -> ArrayVec<u16, WIDTH>
        ensures { result.items ≡ map (bank_through self.now.sizes.k self.now.read.now.items) self.now.columns.now }
    {
        let stages = self.read.as_slice();
        let mut banks = ArrayVec::new();
        for place in self.columns {
            let slot = switches::slot_of(u32::from(*place), self.sizes.k);
            let bank = switches::after_stages(stages, slot.tick, Bank(slot.port.0));
            banks.push(bank.0 as u16);
        }
        banks
    }
}

// "A stage's direction is a kept column, and bit j of its control says whether that column is in the sum for tick bit j" (01).
fn kept_stages(columns: &[u16]) -> Stages
    requires { length columns.now ≤ array_width }
    ensures { result.items ≡ take edition1.most_stages (kept_stages_of columns.now) }
{
    let all = rows::masks_of(columns);
    let masks = &all[..columns.len()];
    let mut stages = Stages::new();
    for (j, column) in columns.iter().enumerate() {
        if rows::was_kept(masks, j) {
            stages.add(Stage {
                direction: *column,
                control: rows::row(masks, j),
            });
        }
    }
    stages
}
