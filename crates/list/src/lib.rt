// The listing of an order card, and what is printed for one (01, 'The order card').
#![tactic(auto)]

ghost use Rattle.std.specs.Prelude.{◌≤◌, [], ◌∷◌, length};
ghost use Rattle.kinds.specs.Answers.{Says};
ghost use Rattle.kinds.specs.Edition.{edition1};
ghost use Rattle.kinds.specs.Lengths.{exactly, at_least, RightLengths};
ghost use Rattle.listed.specs.Tool.{text_places};
ghost use Rattle.list.specs.Tool.{column_line, refusal_line, Lists, PrintsAs, Prints};

use kinds::Refusal;

pub const ROOM: usize = listed::ROOM;

// The text for the card's order, from the first place on, and how long it is. 15, then 1 to 4; the text buffer has to have ROOM places or more.
pub fn list(card: &[u8], text: &mut [u8], length: &mut [u32]) -> Result<(), Refusal>
    ensures { Lists edition1 card.now text.old text.new length.old length.new result }
{
    let card = card::read(card)?;
    let fits = lent_right(text.len(), length.len());
    let columns = card.columns.as_slice();
    order::check_with_k(card.n, card.k, columns, fits)?;
    if let Some(end) = listed::list_order(card.n, card.k, columns, text) {
        length[0] = end as u32;
    }
    Ok(())
}

fn lent_right(text: usize, lengths: usize) -> bool
    ensures { Says result (RightLengths ((text, at_least text_places) ∷ (lengths, exactly 1) ∷ [])) }
{
    ROOM <= text && lengths == 1
}

// What is printed for a card: its text, or its refusal.
pub fn print(card: &[u8], text: &mut [u8; ROOM]) -> usize
    ensures { Prints edition1 card.now text.old text.new result }
{
    let mut length = [0; 1];
    match list(card, text, &mut length) {
        Ok(()) => length[0] as usize,
        Err(refusal) => put_refusal(text, refusal),
    }
}

fn put_refusal(text: &mut [u8], refusal: Refusal) -> usize
    requires { text_places ≤ length text.old }
    ensures { PrintsAs (refusal_line refusal) text.old text.new result }
{
    match refusal {
        Refusal::Dependent(column, mask) => put_column(text, column, mask),
        _ => lines::put_line(text, 0, b"refused", &[refusal.into()]),
    }
}

// The line of 4.
fn put_column(text: &mut [u8], column: u32, mask: u32) -> usize
    requires { text_places ≤ length text.old }
    ensures { PrintsAs (column_line column mask) text.old text.new result }
{
    let at = lines::put_bytes(text, 0, b"refused 4 column ");
    let end = lines::put_number(text, at, column);
    lines::put_line(text, end, b" from", &[mask])
}
