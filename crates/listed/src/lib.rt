// The text that is listed for an order: it is tried out, and what comes of it is written (01, 'The order card').
#![tactic(auto)]

ghost use Rattle.std.specs.Prelude.{◌≡◌, ◌≤◌, length};
ghost use Rattle.lines.specs.Line.{line};
ghost use Rattle.lines.specs.Written.{RoomFor, Writes};
ghost use Rattle.listed.specs.Tool.{ListsOrder};
ghost use Rattle.listed.specs.Inside.{counted_stages, Counted, tick_lines, Frames, Tried, trial_text};

use arrayvec::ArrayVec;
use kinds::Sizes;

// Enough for every listing.
pub const ROOM: usize = 8192;

// The listing from the first place of the text on, and how long it is. None, and nothing is written, where the columns are no order of these sizes, or the text has fewer than ROOM places.
pub fn list_order(n: u32, k: u32, columns: &[u16], text: &mut [u8]) -> Option<usize>
    ensures { ListsOrder n k columns.now text.old text.new result }
{
    if text.len() < ROOM {
        return None;
    }
    let sizes = Sizes::new(n, k).ok()?;
    let mut sheet = [0; sheet::SHEET];
    let mut frame = [0; 1 << kinds::MOST_N];
    let frame = &mut frame[..sizes.words() as usize];
    trial::trial(n, k, columns, &mut sheet, frame).ok()?;
    Some(put_trial(text, sizes, &sheet, frame))
}

// The sizes, the stages of both sides, and the ticks out.
fn put_trial(text: &mut [u8], sizes: Sizes, sheet: &[u16], frame: &[u32]) -> usize
    requires tried { Tried sizes.k sheet.now frame.now }
    requires room_for { RoomFor (trial_text sizes.n sizes.k sheet.now frame.now) 0 text.old }
    ensures { Writes (trial_text sizes.n sizes.k sheet.now frame.now) 0 text.old text.new result }
{
    let write_places = &sheet[sheet::COUNT..sheet::SIDE];
    let read_places = &sheet[sheet::SIDE + sheet::COUNT..];
    let order_end = lines::put_line(text, 0, b"order", &[sizes.n, sizes.k]);
    let write_end = put_side(text, order_end, b"write", write_places);
    let read_end = put_side(text, write_end, b"read", read_places);
    put_ticks(text, read_end, sizes, frame)
}

// A line for one side: the count, and then as many stages.
fn put_side(text: &mut [u8], at: usize, name: &[u8], places: &[u16]) -> usize
    requires counted { Counted places.now }
    requires room_for { RoomFor (line name.now (counted_stages places.now)) at text.old }
    ensures { Writes (line name.now (counted_stages places.now)) at text.old text.new result }
{
    let end = 1 + 2 * places[0] as usize;
    let numbers = widened(&places[..end]);
    lines::put_line(text, at, name, numbers.as_slice())
}

fn widened(numbers: &[u16]) -> ArrayVec<u32, 17>
    requires { length numbers.now ≤ 17 }
    ensures { result.items ≡ numbers.now }
{
    let mut wide = ArrayVec::new();
    for number in numbers {
        wide.push(u32::from(*number));
    }
    wide
}

// A line for each tick of the frame.
fn put_ticks(text: &mut [u8], at: usize, sizes: Sizes, frame: &[u32]) -> usize
    requires frames { Frames sizes.k frame.now }
    requires room_for { RoomFor (tick_lines sizes.k frame.now) at text.old }
    ensures { Writes (tick_lines sizes.k frame.now) at text.old text.new result }
{
    let mut place = at;
    for (c, words) in frame.chunks(sizes.ports() as usize).enumerate() {
        place = lines::put_number(text, place, c as u32);
        place = lines::put_bytes(text, place, b":");
        place = lines::put_line(text, place, b"", words);
    }
    place
}
