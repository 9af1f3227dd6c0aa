// Numbers as rows of bits. Bit 0 is the lowest.
#![tactic(auto)]

ghost use Rattle.std.specs.Prelude.{◌≡◌, ◌+◌, ◌*◌, ◌%◌, ◌^◌, length, take};
ghost use Rattle.kinds.specs.Answers.{Says};
ghost use Rattle.bits.specs.Image.{image as image_of, AllBelow};
ghost use Rattle.bits.specs.Padded.{padded_to};
ghost use Rattle.bits.specs.Parity.{parity as parity_of};
ghost use Rattle.bits.specs.Word.{TwoTo};

// Places of an array of columns, rows or masks.
pub const WIDTH: usize = 16;

// 1 if x has an odd number of ones, else 0. The library's count of ones is slower: where the machine has no instruction for it, tried in this place it made the inspector a third slower.
pub fn parity(x: u32) -> u32
    ensures { result ≡ parity_of x }
{
    let mut odd = 0;
    let mut rest = x;
    while rest != 0 {
        odd = (odd + rest % 2) % 2;
        rest /= 2;
    }
    odd
}

// The exclusive or of the columns at the set bits of x.
pub fn image(columns: &[u16], x: u32) -> u16
    ensures { result ≡ image_of columns.now x }
{
    let mut sum = 0;
    let mut above = x;
    for column in columns {
        if above % 2 == 1 {
            sum ^= *column;
        }
        above /= 2;
    }
    sum
}

// Whether each number has at most m bits: each has exactly when their OR has, so one comparison serves.
pub fn within_bits(numbers: &[u16], m: u32) -> bool
    ensures { Says result (AllBelow (2 ^ m) numbers.now) }
{
    let mut all = 0;
    for number in numbers {
        all |= *number;
    }
    16 <= m || u32::from(all) < two_to(m)
}

pub fn two_to(k: u32) -> u32
    ensures { TwoTo k result }
{
    1u32.checked_shl(k).unwrap_or(0)
}

pub fn is_two_to(length: usize, k: u32) -> bool
    ensures { Says result (length ≡ 2 ^ k) }
{
    k < usize::BITS && length == 1 << k
}

// A number in two parts, the lower one of k bits; of the whole, 16 bits, as columns have.
pub fn joined(high: u32, low: u32, k: u32) -> u16
    ensures { result ≡ (high * 2 ^ k + low) % 2 ^ 16 }
{
    let whole = u64::from(high) * u64::from(two_to(k)) + u64::from(low);
    (whole % 65536) as u16
}

// The numbers that there are places for, and zeros after them.
pub fn pad_into(numbers: &[u16], places: &mut [u16])
    ensures { places.new ≡ padded_to (length places.old) (take (length places.old) numbers.now) }
{
    let end = numbers.len().min(places.len());
    places[..end].copy_from_slice(&numbers[..end]);
    places[end..].fill(0);
}

// The same in an array. Each place is written once, zeros too, so that what holds it can be copied at once in wide pieces.
pub fn padded<const N: usize>(numbers: &[u16]) -> [u16; N]
    ensures { result ≡ padded_to N (take N numbers.now) }
{
    let mut places = [0; N];
    for j in 0..N {
        places[j] = numbers.get(j).copied().unwrap_or(0);
    }
    places
}
