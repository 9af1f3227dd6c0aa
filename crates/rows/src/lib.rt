// Rows of a list of columns, and what a scan kept of them, or of any numbers.
#![tactic(auto)]

ghost use Rattle.std.specs.Prelude.{◌≡◌, ◌/◌, ◌^◌, min, take};
ghost use Rattle.bits.specs.Image.{columns as columns_of};
ghost use Rattle.bits.specs.Padded.{array_width, padded};
ghost use Rattle.span.specs.Scan.{masks as masks_of_each, units};
ghost use Rattle.span.specs.Rows.{row as row_in, rows as rows_in};
ghost use Rattle.rows.specs.Listed.{kept_in, FirstUnkept, kept_numbers};

use bits::WIDTH;
use few::Few;

// Bit j of row i is bit i of number j; of more than 16 numbers the first 16 are taken.
pub fn row(numbers: &[u16], i: usize) -> u16
    ensures { result ≡ row_in (take array_width numbers.now) i }
{
    if WIDTH <= i {
        return 0;
    }
    let first = &numbers[..numbers.len().min(WIDTH)];
    let mut row = 0;
    for number in first.iter().rev() {
        row = 2 * row + (*number >> i) % 2;
    }
    row
}

// The first rows of the columns, 16 at most, and of at most 16 columns; zeros after them.
pub fn rows_of(columns: &[u16], count: usize) -> [u16; WIDTH]
    ensures { result ≡ padded (rows_in (min count array_width) (take array_width columns.now)) }
{
    let mut rows = [0; WIDTH];
    for i in 0..count.min(WIDTH) {
        rows[i] = row(columns, i);
    }
    rows
}

// The masks of the numbers, scanned in order, of more than 16 the first 16; zeros after them.
pub fn masks_of(numbers: &[u16]) -> [u16; WIDTH]
    ensures { result ≡ padded (masks_of_each (take array_width numbers.now)) }
{
    span::scan_all(numbers).masks
}

// Number i was kept exactly when its mask is 2^i: the mask of any other selects numbers before it. A number that has no mask was not.
pub fn was_kept(masks: &[u16], i: usize) -> bool
    ensures { result ≡ kept_in masks.now i }
{
    i < WIDTH && i < masks.len() && bits::two_to(i as u32) <= u32::from(masks[i])
}

// A number that is a sum of kept ones: where it stands, and its mask.
#[derive(Clone, Copy, Debug, PartialEq, Eq)]
pub struct Summed {
    pub at: u32,
    pub mask: u32,
}

// The first number that was not kept, if one was not. Of a dependent list it is the first that is a sum of earlier ones, and all of those were kept.
pub fn first_sum(masks: &[u16]) -> Option<Summed>
    ensures { FirstUnkept masks.now result }
{
    for (j, mask) in masks.iter().enumerate() {
        if !was_kept(masks, j) {
            return Some(Summed {
                at: j as u32,
                mask: u32::from(*mask),
            });
        }
    }
    None
}

// Of the rows from a to b - 1, of the first 16, those that were kept, or those that were not, each as a power of two; 2^0 stands for row a. `kept` is what a row is compared with, and chooses no other way to go.
pub fn list_rows(masks: &[u16], a: usize, b: usize, kept: bool) -> Few<u16, WIDTH>
    ensures { result.items ≡ units (kept_numbers masks.now a (min b array_width) kept) }
{
    let mut units = Few::new();
    for i in a..b.min(WIDTH) {
        if was_kept(masks, i) == kept {
            units.add(bits::two_to((i - a) as u32) as u16);
        }
    }
    units
}

// 2^0, 2^1, .. from place a up to b - 1, or to the last of 16, and zeros elsewhere.
pub fn unit_columns(a: usize, b: usize) -> [u16; WIDTH]
    ensures { result ≡ padded (columns_of (min b array_width) (λ x. x / 2 ^ a)) }
{
    let mut columns = [0; WIDTH];
    for j in a..b.min(WIDTH) {
        columns[j] = bits::two_to((j - a) as u32) as u16;
    }
    columns
}
