// The price of a sheet (01, 'Price', with R-4).
#![tactic(auto)]

ghost use Rattle.std.specs.Prelude.{◌≡◌};
ghost use Rattle.kinds.specs.Edition.{edition1};
ghost use Rattle.sheet.specs.Sheet.{stages_in};
ghost use Rattle.price.specs.Price.{total, xor_gates_of, Prices};
ghost use Rattle.price.specs.Inside.{Controlled};

use kinds::Refusal;

// The three sums of a price; the gates are the xor gates of the controls.
#[derive(Clone, Copy, Debug, PartialEq, Eq)]
pub struct Sums {
    pub switches: u32,
    pub multiplexers: u32,
    pub gates: u32,
}

// By R-4; 01 had one.
const MULTIPLEXERS_OF_A_SWITCH: u32 = 2;

// What the stages of both sides cost. 1, 2 and 5.
pub fn price(n: u32, k: u32, sheet: &[u16]) -> Result<Sums, Refusal>
    ensures { Prices edition1 n k sheet.now result }
{
    sheet::check(n, k, sheet, true)?;
    let write_stages = sheet[sheet::COUNT] as usize;
    let read_stages = sheet[sheet::SIDE + sheet::COUNT] as usize;
    let switches = (write_stages as u32 + read_stages as u32) * bits::two_to(k - 1);
    let write_gates = xor_gates(&sheet[sheet::STAGES..sheet::SIDE], write_stages);
    let read_gates = xor_gates(&sheet[sheet::SIDE + sheet::STAGES..], read_stages);
    Ok(Sums {
        switches,
        multiplexers: MULTIPLEXERS_OF_A_SWITCH * switches,
        gates: write_gates + read_gates,
    })
}

// "The ones in its control number, less one" (01), of the first count stages.
fn xor_gates(places: &[u16], count: usize) -> u32
    requires { Controlled count places.now }
    ensures { result ≡ total xor_gates_of (stages_in count places.now) }
{
    let mut gates = 0;
    for s in 0..count {
        let control = u32::from(sheet::stage_at(places, s).control);
        gates += control.count_ones() - 1;
    }
    gates
}
