// The listing program: an order card on standard input, and its listing or its refusal on standard output.
#![tactic(auto)]

fn main() {
    let mut bytes = [0; card::LONGEST + 1];
    let length = io::read_full(0, &mut bytes);
    let mut text = [0; list::ROOM];
    let end = list::print(&bytes[..length], &mut text);
    io::write_all(1, &text[..end]);
}
