// Text that is written into a buffer: bytes, numbers in decimal, and lines of them. Where there is no room for all of it, nothing is written, and the answer is the place that was given: a place and no Option, so that a caller goes on from it either way.
// A text and a place in it are no struct: whatever took one with a `&mut` in it would have to promise besides that it still points to the same text. And numbers are not printed by `write!`, which writes what there is room for and then fails.
#![tactic(auto)]

ghost use Rattle.std.specs.Prelude.{◌≡◌, ◌+◌, ◌≤◌, length};
ghost use Rattle.kinds.specs.Answers.{Says};
ghost use Rattle.text.specs.Decimal.{decimal};
ghost use Rattle.lines.specs.Line.{line_end, line};
ghost use Rattle.lines.specs.Written.{RoomFor, Writes, Puts};

// No number of 32 bits has more, and none takes more after a space.
const MOST_DIGITS: usize = 10;

const MOST_SPACED: usize = MOST_DIGITS + 1;

pub fn put_bytes(text: &mut [u8], at: usize, bytes: &[u8]) -> usize
    ensures { Puts bytes.now at text.old text.new result }
{
    if !has_room(text.len(), at, bytes.len()) {
        return at;
    }
    for (i, byte) in bytes.iter().enumerate() {
        text[at + i] = *byte;
    }
    at + bytes.len()
}

pub fn put_number(text: &mut [u8], at: usize, number: u32) -> usize
    ensures { Puts (decimal number) at text.old text.new result }
{
    if !number_fits(text.len(), at, number) {
        return at;
    }
    put_digits(text, at, number)
}

// A line: its name, the numbers, each after a space, and the newline.
pub fn put_line(text: &mut [u8], at: usize, name: &[u8], numbers: &[u32]) -> usize
    ensures { Puts (line name.now numbers.now) at text.old text.new result }
{
    if !line_fits(text.len(), at, name.len(), numbers) {
        return at;
    }
    let end = put_bytes(text, at, name);
    put_numbers(text, end, numbers)
}

// Whether so many bytes have room from a place of a text on.
fn has_room(places: usize, at: usize, bytes: usize) -> bool
    ensures { Says result (at + bytes ≤ places) }
{
    at <= places && bytes <= places - at
}

// Whether a number has. Its digits are counted only where there is little room.
fn number_fits(places: usize, at: usize, number: u32) -> bool
    ensures { Says result (at + length (decimal number) ≤ places) }
{
    has_room(places, at, MOST_DIGITS) || has_room(places, at, width(number))
}

// Whether a line has, where its name has so many bytes. The same goes for its numbers.
fn line_fits(places: usize, at: usize, name: usize, numbers: &[u32]) -> bool
    ensures { Says result (at + (name + length (line_end numbers.now)) ≤ places) }
{
    if !has_room(places, at, name) {
        return false;
    }
    let mut end = at + name;
    if numbers.len() < (places - end) / MOST_SPACED {
        return true;
    }
    for number in numbers {
        let spaced = 1 + width(*number);
        if !has_room(places, end, spaced) {
            return false;
        }
        end += spaced;
    }
    end < places
}

// The digits that a number has.
fn width(number: u32) -> usize
    ensures { result ≡ length (decimal number) }
{
    let mut digits = 1;
    let mut rest = number;
    while 10 <= rest {
        rest /= 10;
        digits += 1;
    }
    digits
}

// The numbers, each after a space, and the newline.
fn put_numbers(text: &mut [u8], at: usize, numbers: &[u32]) -> usize
    requires { RoomFor (line_end numbers.now) at text.old }
    ensures { Writes (line_end numbers.now) at text.old text.new result }
{
    let mut place = at;
    for number in numbers {
        text[place] = b' ';
        place = put_digits(text, place + 1, *number);
    }
    text[place] = b'\n';
    place + 1
}

fn put_digits(text: &mut [u8], at: usize, number: u32) -> usize
    requires { RoomFor (decimal number) at text.old }
    ensures { Writes (decimal number) at text.old text.new result }
{
    let mut place = at;
    if 10 <= number {
        place = put_digits(text, at, number / 10);
    }
    text[place] = b'0' + (number % 10) as u8;
    place + 1
}
