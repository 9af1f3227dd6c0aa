// Stages, and the numbers of words and cells: which tick and port a place has, which number a word or a cell has, and which bank the stages leave.
#![tactic(auto)]

ghost use Rattle.std.specs.Prelude.{◌≡◌, ◌+◌, ◌*◌, ◌%◌, ◌^◌};
ghost use Rattle.kinds.specs.Frame.{tick_of, port_of, word_at};
ghost use Rattle.switches.specs.Stages.{bank_after};

use kinds::{Addr, Bank, Port, Tick};
use sheet::Stage;

// When and where a word comes or leaves.
#[derive(Clone, Copy, Debug, PartialEq, Eq)]
pub struct Slot {
    pub tick: Tick,
    pub port: Port,
}

// "Word number i enters at tick c = i / 2^k (whole part), port p = i mod 2^k" (01); a place likewise.
pub fn slot_of(i: u32, k: u32) -> Slot
    ensures tick_value { result.tick.0 ≡ tick_of k i }
    ensures port_value { result.port.0 ≡ port_of k i }
{
    let ports = bits::two_to(k);
    if ports == 0 {
        return Slot {
            tick: Tick(0),
            port: Port(i),
        };
    }
    Slot {
        tick: Tick(i / ports),
        port: Port(i % ports),
    }
}

// The number of the word that comes then and there: of it the lower 16 bits, which columns look at.
pub fn word_number(slot: Slot, k: u32) -> u16
    ensures { result ≡ word_at k slot.tick.0 slot.port.0 % 2 ^ 16 }
{
    bits::joined(slot.tick.0, slot.port.0, k)
}

// "The cell number is address*2^k + bank" (01): of it the lower 16 bits. It computes what `word_number` does, of other kinds, which 01 keeps apart.
pub fn cell_number(address: Addr, bank: Bank, k: u32) -> u16
    ensures { result ≡ (address.0 * 2 ^ k + bank.0) % 2 ^ 16 }
{
    bits::joined(address.0, bank.0, k)
}

// Each stage xors its direction into the bank if its control AND the tick has an odd number of ones.
pub fn after_stages(stages: &[Stage], tick: Tick, bank: Bank) -> Bank
    ensures { result.0 ≡ bank_after stages.now tick.0 bank.0 }
{
    let mut after = bank.0;
    for stage in stages {
        if bits::parity(u32::from(stage.control) & tick.0) == 1 {
            after ^= u32::from(stage.direction);
        }
    }
    Bank(after)
}
