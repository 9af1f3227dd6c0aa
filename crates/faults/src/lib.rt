// When a call must not go on: 11 to 14, for any cells that it writes and reads.
#![tactic(auto)]

ghost use Rattle.std.specs.Prelude.{◌≡◌, ◌^◌, ◌≤◌, length, None};
ghost use Rattle.std.proofs.Math.Decide.{dec_le};
ghost use Rattle.kinds.specs.Answers.{Says, if_holds};
ghost use Rattle.kinds.specs.First.{first_of};
ghost use Rattle.kinds.specs.Refusal.{said};
ghost use Rattle.faults.specs.Marks.{Filled, with_marks};
ghost use Rattle.faults.specs.Faults.{Clash, most_cells, SomeMarked};
ghost use Rattle.faults.specs.Table.{first_pair_of, fault_table};
ghost use Rattle.faults.specs.Inside.{most_banks, BankBits};

use kinds::{Bank, Port, Refusal};

// The most cells whose ports have numbers of 32 bits.
const CELLS: usize = 1 << 32;

// The most bits of a bank's number for which a number of 64 bits has a bit for each bank.
const SMALL: u32 = 6;

// 11 to 14, of the cells that are written and of those that are read, by port. 12 is judged on the marks as they came or, where `after` says so, as this call's read leaves them: it is a word of the table that is promised (`fault_table`).
// 2 where there are more cells than ports have numbers.
pub fn first_fault(
    after: bool,
    k: u32,
    writes: &[u32],
    reads: &[u32],
    marks: &[u8],
) -> Result<(), Refusal>
    ensures { said result ≡ first_of (fault_table after k writes.now reads.now marks.now) }
{
    if CELLS < writes.len() || CELLS < reads.len() {
        return Err(Refusal::Length);
    }
    if let Some((first, second)) = first_pair(k, writes) {
        return Err(Refusal::WriteClash(first, second));
    }
    let freed: &[u32] = if after { reads } else { &[] };
    if some_cell(writes, freed, marks, true) {
        return Err(Refusal::Overwrite);
    }
    if let Some((first, second)) = first_pair(k, reads) {
        return Err(Refusal::ReadClash(first, second));
    }
    if some_cell(reads, &[], marks, false) {
        return Err(Refusal::EmptyRead);
    }
    Ok(())
}

// The first two ports whose cells are of one bank. Where the banks are few one pass says whether there is a pair, and it is searched for only where there is one. None where there are more cells than ports have numbers.
pub fn first_pair(k: u32, cells: &[u32]) -> Option<(Port, Port)>
    ensures { result ≡ if_holds (dec_le (length cells.now) most_cells) (first_pair_of k cells.now) None }
{
    if CELLS < cells.len() || k <= SMALL && banks_differ(k, cells) {
        return None;
    }
    find_pair(k, cells)
}

// A bit of `seen` for each bank.
fn banks_differ(k: u32, cells: &[u32]) -> bool
    requires { 2 ^ k ≤ most_banks }
    ensures { Says result (¬ Clash k cells.now) }
{
    let mask = bank_bits(k);
    let mut seen: u64 = 0;
    for cell in cells {
        let bank = Bank(*cell & mask);
        if (seen >> bank.0) % 2 == 1 {
            return false;
        }
        seen ^= 1 << bank.0;
    }
    true
}

// "Two nested loops over ports, left by a label when two banks are equal" (01).
fn find_pair(k: u32, cells: &[u32]) -> Option<(Port, Port)>
    requires { length cells.now ≤ most_cells }
    ensures { result ≡ first_pair_of k cells.now }
{
    let mask = bank_bits(k);
    let mut pair = None;
    'ports: for (p, cell) in cells.iter().enumerate() {
        let bank = Bank(*cell & mask);
        for q in p + 1..cells.len() {
            if Bank(cells[q] & mask) == bank {
                pair = Some((Port(p as u32), Port(q as u32)));
                break 'ports;
            }
        }
    }
    pair
}

// The bits of a cell's number that say its bank: with 2^32 banks or more, all that it has.
fn bank_bits(k: u32) -> u32
    ensures { BankBits k result }
{
    if 32 <= k {
        return u32::MAX;
    }
    bits::two_to(k) - 1
}

// Whether some cell is filled, or whether some cell is empty, as the marks are after the freed cells were emptied.
pub fn some_cell(cells: &[u32], freed: &[u32], marks: &[u8], filled: bool) -> bool
    ensures { Says result (SomeMarked filled (with_marks 0 freed.now marks.now) cells.now) }
{
    cells
        .iter()
        .any(|cell| is_filled(*cell, freed, marks) == filled)
}

// Whether a cell is filled that was not freed. A cell beyond the memory is empty.
fn is_filled(cell: u32, freed: &[u32], marks: &[u8]) -> bool
    ensures { Says result (Filled (with_marks 0 freed.now marks.now) cell) }
{
    let at = cell as usize;
    let marked = at < marks.len() && marks[at] != 0;
    marked && !freed.contains(&cell)
}
