// The order card (01, 'The order card').
#![tactic(auto)]

ghost use Rattle.card.specs.Card.{Reads};
ghost use Rattle.card.specs.Inside.{Further, ReadsColumns};

use few::Few;
use kinds::Refusal;

pub const LONGEST: usize = 128;

// A number takes a byte at least, and what ends it another; two of the numbers are n and k.
pub const MOST_COLUMNS: usize = LONGEST / 2 - 2;

// What a card says.
#[derive(Clone, Copy)]
pub struct Card {
    pub n: u32,
    pub k: u32,
    pub columns: Few<u16, MOST_COLUMNS>,
}

// 15, or what the card says.
pub fn read(card: &[u8]) -> Result<Card, Refusal>
    ensures { Reads card.now result }
{
    if LONGEST < card.len() {
        return Err(Refusal::Card);
    }
    let Ok(n) = text::next(card, 0) else {
        return Err(Refusal::Card);
    };
    let Ok(k) = text::next(card, n.end) else {
        return Err(Refusal::Card);
    };
    let columns = read_columns(card, k.end)?;
    Ok(Card {
        n: u32::from(n.value),
        k: u32::from(k.value),
        columns,
    })
}

// The numbers from this place of the card to its end. Each says where the next one starts, so no range counts the places.
fn read_columns(card: &[u8], at: usize) -> Result<Few<u16, MOST_COLUMNS>, Refusal>
    requires { Further card.now at }
    ensures { ReadsColumns card.now at result }
{
    let mut columns = Few::new();
    let mut place = at;
    while place < card.len() {
        let Ok(column) = text::next(card, place) else {
            return Err(Refusal::Card);
        };
        columns.add(column.value);
        place = column.end;
    }
    Ok(columns)
}
