// Decimal numbers in bytes, and those of an order card, read one after the other.
#![tactic(auto)]

ghost use Rattle.std.specs.Prelude.{◌≡◌, drop};
ghost use Rattle.text.specs.Number.{NumberIs};
ghost use Rattle.text.specs.Numbers.{ending as ending_of, NextIs};

use kinds::Refusal;

// A number that was read, and the place after it.
#[derive(Clone, Copy, Debug, PartialEq, Eq)]
pub struct Numeral {
    pub value: u16,
    pub end: usize,
}

// The place of the first byte from which no number could go on.
#[derive(Clone, Copy, Debug, PartialEq, Eq)]
pub struct BadByte(pub usize);

// The number whose digits start at this place of the bytes: all the digits that stand there. `str::parse` neither names the bad byte nor refuses a leading zero.
pub fn number(bytes: &[u8], at: usize) -> Result<Numeral, BadByte>
    ensures { NumberIs bytes.now at result }
{
    let mut value: u32 = 0;
    let mut place = at;
    while place < bytes.len() {
        let byte = bytes[place];
        if !byte.is_ascii_digit() {
            break;
        }
        if value == 0 && place != at {
            return Err(BadByte(place));
        }
        value = 10 * value + u32::from(byte - b'0');
        if 65535 < value {
            return Err(BadByte(place));
        }
        place += 1;
    }
    if place == at {
        return Err(BadByte(at));
    }
    Ok(Numeral {
        value: value as u16,
        end: place,
    })
}

// "The next thing on the card is either a number or a refusal" (01): a number comes with the place after the byte that ends it, which is a space, and at the card's end the newline. 15.
pub fn next(card: &[u8], at: usize) -> Result<Numeral, Refusal>
    ensures { NextIs card.now at result }
{
    let Ok(read) = number(card, at) else {
        return Err(Refusal::Card);
    };
    let end = read.end;
    if end < card.len() && card[end] == ending(card, end + 1) {
        return Ok(Numeral {
            value: read.value,
            end: end + 1,
        });
    }
    Err(Refusal::Card)
}

// The byte that has to end a number, where what comes after it starts at this place.
fn ending(card: &[u8], after: usize) -> u8
    ensures { result ≡ ending_of (drop after card.now) }
{
    if after < card.len() { b' ' } else { b'\n' }
}
