// A side of a sheet that was opened: checked once, and then asked for the address, the bank and the cell of each word.
#![tactic(auto)]

ghost use Rattle.std.specs.Prelude.{◌≡◌, ◌+◌, ◌*◌, ◌%◌, ◌^◌, ◌≤◌, length};
ghost use Rattle.kinds.specs.Edition.{edition1};
ghost use Rattle.maps.specs.Opened.{Opens, Readdresses, IsAddress, IsBank, IsCell, IsWiring, SaysSurplus, AreColumns, ListsCells};
ghost use Rattle.maps.specs.Inside.{SideOf, OpensSide, IsColumn, Doubled};

use arrayvec::ArrayVec;
use bits::WIDTH;
use kinds::{Addr, Bank, Port, Refusal, Sizes, Tick};
use sheet::{MOST_STAGES, Stages};
use switches::Slot;

// A side with what it uses in range. Its columns have zeros after them: a column of 0 changes nothing, so a loop may go through every place.
// That an opened side shows a side of a sheet (`Shows`) is no invariant of the type: `with_addresses` takes columns that no side of as many bits has, and what a side's n is no field tells.
#[derive(Clone, Copy)]
pub struct OpenSide {
    k: u32,
    addresses: [u16; WIDTH],
    wiring: [u16; WIDTH],
    stages: Stages,
}

// Both sides of a sheet, opened.
#[derive(Clone, Copy)]
pub struct Sides {
    pub write: OpenSide,
    pub read: OpenSide,
}

// 1, 2 and 5, and both sides where none applies. `fits` says whether every other length that the tool was lent is right.
pub fn open(n: u32, k: u32, sheet: &[u16], fits: bool) -> Result<Sides, Refusal>
    ensures { Opens edition1 n k sheet.now fits result }
{
    let sizes = sheet::check(n, k, sheet, fits)?;
    let write = open_side(sizes, &sheet[..sheet::SIDE]);
    let read = open_side(sizes, &sheet[sheet::SIDE..]);
    Ok(Sides { write, read })
}

fn open_side(sizes: Sizes, side: &[u16]) -> OpenSide
    requires { SideOf sizes.n sizes.k side.now }
    ensures { OpensSide sizes.n sizes.k side.now result }
{
    OpenSide {
        k: sizes.k,
        addresses: bits::padded(&side[..sheet::WIRING]),
        wiring: bits::padded(&side[sheet::WIRING..sheet::COUNT]),
        stages: sheet::stages_of(&side[sheet::STAGES..], side[sheet::COUNT] as usize),
    }
}

impl OpenSide {
    // "The address columns applied to c*2^k + p" (01).
    pub fn address(&self, slot: Slot) -> Addr
        ensures { IsAddress self.now slot.tick.0 slot.port.0 result.0 }
    {
        let word = switches::word_number(slot, self.k);
        Addr(u32::from(bits::image(&self.addresses, u32::from(word))))
    }

    // It starts as the wiring applied to the port; then come the stages.
    pub fn bank(&self, slot: Slot) -> Bank
        ensures { IsBank self.now slot.tick.0 slot.port.0 result.0 }
    {
        let wired = u32::from(bits::image(&self.wiring, slot.port.0));
        switches::after_stages(self.stages.as_slice(), slot.tick, Bank(wired))
    }

    pub fn cell(&self, slot: Slot) -> u16
        ensures { IsCell self.now slot.tick.0 slot.port.0 result }
    {
        let address = self.address(slot);
        let bank = self.bank(slot);
        switches::cell_number(address, bank, self.k)
    }

    // The wiring columns, and zeros after them.
    pub fn wiring(&self) -> [u16; WIDTH]
        ensures { IsWiring self.now result }
    {
        self.wiring
    }

    // Whether there are more stages than the rank of the tick-to-bank part: there are exactly when the directions are dependent, or the controls.
    pub fn has_surplus(&self) -> bool
        ensures { SaysSurplus self.now result }
    {
        let mut directions = ArrayVec::<u16, MOST_STAGES>::new();
        let mut controls = ArrayVec::<u16, MOST_STAGES>::new();
        for stage in self.stages.as_slice() {
            directions.push(stage.direction);
            controls.push(stage.control);
        }
        !span::independent(directions.as_slice()) || !span::independent(controls.as_slice())
    }

    // The side with other address columns, and zeros after them: whichever run chooses its own addresses keeps the sheet's banks. Where a cell would have more than 16 bits, the side as it is.
    pub fn with_addresses(self, addresses: [u16; WIDTH]) -> OpenSide
        ensures { Readdresses self addresses result }
    {
        if 16 < self.k || !bits::within_bits(&addresses, 16 - self.k) {
            return self;
        }
        OpenSide { addresses, ..self }
    }

    // The columns of the side's map, and zeros after them.
    pub fn columns(&self) -> [u16; WIDTH]
        ensures { AreColumns self.now result }
    {
        let mut columns = [0; WIDTH];
        for (j, column) in columns.iter_mut().enumerate() {
            *column = self.column(j);
        }
        columns
    }

    // Column j is the cell of word 2^j, which has a port bit and tick 0, or a tick bit and port 0. The remainder keeps the index inside whatever k is;
    // no side that was opened has more than 16 columns.
    fn column(&self, j: usize) -> u16
        ensures { IsColumn self.now j result }
    {
        let at = j % WIDTH;
        let bit = at as u32;
        let address = Addr(u32::from(self.addresses[at]));
        if bit < self.k {
            let wired = u32::from(self.wiring[at]);
            return switches::cell_number(address, Bank(wired), self.k);
        }
        let tick = Tick(bits::two_to(bit - self.k));
        let bank = switches::after_stages(self.stages.as_slice(), tick, Bank(0));
        switches::cell_number(address, bank, self.k)
    }

    // The cells of a tick, by port; the wiring sends port 0 to bank 0. 2 unless there is a place for each port.
    pub fn cells(&self, tick: Tick, out: &mut [u16]) -> Result<(), Refusal>
        ensures { ListsCells self.now tick.0 out.old out.new result }
    {
        if !bits::is_two_to(out.len(), self.k) {
            return Err(Refusal::Length);
        }
        let address = self.address(Slot {
            tick,
            port: Port(0),
        });
        let bank = switches::after_stages(self.stages.as_slice(), tick, Bank(0));
        out[0] = switches::cell_number(address, bank, self.k);
        // each port bit doubles what is filled
        let mut filled = 1;
        let mut j = 0;
        while filled < out.len() {
            double(out, filled, self.column(j));
            filled *= 2;
            j += 1;
        }
        Ok(())
    }
}

// The cells of the first ports, once more with the next port bit.
fn double(cells: &mut [u16], filled: usize, column: u16)
    requires { 2 * filled ≤ length cells.old }
    ensures { Doubled filled column cells.old cells.new }
{
    for p in 0..filled {
        cells[filled + p] = cells[p] ^ column;
    }
}
