// The scan: numbers come one by one, and one that is no sum of those kept before it is kept.
#![tactic(auto)]

ghost use Rattle.std.specs.Prelude.{◌≡◌, []};
ghost use Rattle.kinds.specs.Answers.{Says};
ghost use Rattle.span.specs.Sums.{Independent};
ghost use Rattle.span.specs.Held.{Holds, Reduces};
ghost use Rattle.span.specs.Tools.{Asks, Scans};

use bits::WIDTH;

// What a scan has kept, in echelon form. An entry is a row in its upper 16 bits, and in its lower 16 the mask that says which
// of the scanned numbers the row is the sum of: one exclusive or takes both away. The row with z leading zeros stands at z; 0 is no entry.
#[derive(Clone, Copy, Debug, PartialEq, Eq)]
pub struct Scan {
    entries: [u32; WIDTH],
}

impl Scan {
    // Nothing scanned yet.
    pub fn new() -> Self
        ensures { Holds result [] }
    {
        Scan {
            entries: [0; WIDTH],
        }
    }

    // Which of the kept numbers have v as their sum, if any have.
    pub fn mask_of(self, v: u16) -> Option<u16>
        ensures { Asks self v result }
    {
        let left = reduce(&self.entries, u32::from(v) * 65536);
        if 65536 <= left {
            return None;
        }
        Some(left as u16)
    }
}

// `independent` is no flag of the others: what the scan holds and the masks stand whichever it says.
#[derive(Clone, Copy, Debug, PartialEq, Eq)]
pub struct Scanned {
    pub scan: Scan,
    pub masks: [u16; WIDTH],
    pub independent: bool,
}

// Scans the numbers in order, of more than 16 the first 16. The masks say which kept numbers make up each; a kept one is its own.
pub fn scan_all(numbers: &[u16]) -> Scanned
    ensures { Scans numbers.now result }
{
    let mut entries = [0; WIDTH];
    let mut masks = [0; WIDTH];
    let mut independent = numbers.len() <= WIDTH;
    let first = &numbers[..numbers.len().min(WIDTH)];
    for (j, number) in first.iter().enumerate() {
        let left = reduce(&entries, u32::from(*number) * 65536);
        if 65536 <= left {
            let own = bits::two_to(j as u32);
            let z = left.leading_zeros() as usize;
            entries[z] = left ^ own;
            masks[j] = own as u16;
        } else {
            masks[j] = left as u16;
            independent = false;
        }
    }
    Scanned {
        scan: Scan { entries },
        masks,
        independent,
    }
}

pub fn independent(numbers: &[u16]) -> bool
    ensures { Says result (Independent numbers.now) }
{
    scan_all(numbers).independent
}

// Takes away the entry with as many leading zeros, as long as there is one: what is left is then smaller.
fn reduce(entries: &[u32; WIDTH], entry: u32) -> u32
    ensures { Reduces entries.now entry result }
{
    let mut left = entry;
    while 65536 <= left {
        let less = left ^ entries[left.leading_zeros() as usize];
        if left <= less {
            return left;
        }
        left = less;
    }
    left
}
