// The board's tools for C callers: the exports of libboard.a. Each is thin: it calls the tool, and answers with 01's number, and in `said` with what a refusal names. include/board.h says the same for C.
#![tactic(auto)]

ghost use Rattle.std.specs.Prelude.{◌≡◌, length};
ghost use Rattle.kinds.specs.Edition.{edition1};
ghost use Rattle.order.specs.Tools.{Inverts};
ghost use Rattle.mover.specs.Tool.{Moves};
ghost use Rattle.plan.specs.Tool.{Plans};
ghost use Rattle.inspect.specs.Tool.{Inspects};
ghost use Rattle.told.specs.Told.{AnswersAs};
ghost use Rattle.board.specs.Names.{outside_sizes, outside_n, Reports, RunsAs, PricesAs, ListsAs};

use call::Ran;
use kinds::Refusal;
use state::State;

#[unsafe(no_mangle)]
pub extern "C" fn board_plan(
    n: u32,
    k: u32,
    columns: &[u16],
    sheet: &mut [u16],
    said: &mut [u32],
) -> u32
    ensures { AnswersAs (outside_sizes edition1 n k) (Plans edition1 n k columns.now sheet.old sheet.new)
        (sheet.new ≡ sheet.old) said.old said.new result }
{
    if said.len() != 3 {
        return told::wrong_length(kinds::sized(n, k));
    }
    told::tell(plan::plan(n, k, columns, sheet), said)
}

#[unsafe(no_mangle)]
pub extern "C" fn board_inspect(
    n: u32,
    k: u32,
    columns: &[u16],
    sheet: &[u16],
    said: &mut [u32],
) -> u32
    ensures { AnswersAs (outside_sizes edition1 n k) (Inspects edition1 n k columns.now sheet.now)
        Unit said.old said.new result }
{
    if said.len() != 3 {
        return told::wrong_length(kinds::sized(n, k));
    }
    told::tell(inspect::inspect(n, k, columns, sheet), said)
}

#[unsafe(no_mangle)]
pub extern "C" fn board_move(
    n: u32,
    columns: &[u16],
    frame: &[u32],
    out: &mut [u32],
    said: &mut [u32],
) -> u32
    ensures { AnswersAs (outside_n edition1 n) (Moves edition1 n columns.now frame.now out.old out.new)
        (out.new ≡ out.old) said.old said.new result }
{
    if said.len() != 3 {
        return told::wrong_length(kinds::sized_n(n));
    }
    told::tell(mover::move_frame(n, columns, frame, out), said)
}

#[unsafe(no_mangle)]
pub extern "C" fn board_inverse(n: u32, columns: &[u16], out: &mut [u16], said: &mut [u32]) -> u32
    ensures { AnswersAs (outside_n edition1 n) (Inverts edition1 n columns.now out.old out.new)
        (out.new ≡ out.old) said.old said.new result }
{
    if said.len() != 3 {
        return told::wrong_length(kinds::sized_n(n));
    }
    told::tell(order::inverse(n, columns, out), said)
}

// The state is a, h, r. In the first place of `said` stands whether a tick was handed out, 1 or 0.
#[unsafe(no_mangle)]
pub extern "C" fn board_tick(
    n: u32,
    k: u32,
    sheet: &[u16],
    state: &mut [u32],
    tick: &[u32],
    out: &mut [u32],
    words: &mut [u32],
    marks: &mut [u8],
    said: &mut [u32],
) -> u32
    ensures { RunsAs edition1 n k sheet.now tick.now
        (record { state = state.old; memory = record { words = words.old; marks = marks.old }; out = out.old; said = said.old })
        (record { state = state.new; memory = record { words = words.new; marks = marks.new }; out = out.new; said = said.new }) result }
{
    if state.len() != 3 || said.len() != 3 {
        return told::wrong_length(kinds::sized(n, k));
    }
    let before = State {
        a: state[0],
        h: state[1],
        r: state[2],
    };
    let answer = run::tick(n, k, sheet, before, tick, out, words, marks);
    report(answer, state, said)
}

fn report(answer: Result<Ran, Refusal>, state: &mut [u32], said: &mut [u32]) -> u32
    requires { (length state.old ≡ 3) × (length said.old ≡ 3) }
    ensures { Reports answer state.old state.new said.old said.new result }
{
    match answer {
        Ok(ran) => {
            told::put_three(state, ran.state.a, ran.state.h, ran.state.r);
            said[0] = u32::from(ran.handed);
            0
        }
        Err(refusal) => told::tell_refusal(refusal, said),
    }
}

// The sums are the switches, the multiplexers and the xor gates.
#[unsafe(no_mangle)]
pub extern "C" fn board_price(n: u32, k: u32, sheet: &[u16], sums: &mut [u32]) -> u32
    ensures { PricesAs edition1 n k sheet.now sums.old sums.new result }
{
    if sums.len() != 3 {
        return told::wrong_length(kinds::sized(n, k));
    }
    match price::price(n, k, sheet) {
        Ok(price) => {
            told::put_three(sums, price.switches, price.multiplexers, price.gates);
            0
        }
        Err(refusal) => refusal.into(),
    }
}

// The length of the text is the one place of `length`. Where `said` is not three places the answer is 2, after 15 and 1, which only the card tells: so the listing is lent a text of no places, and refuses that.
#[unsafe(no_mangle)]
pub extern "C" fn board_list(
    card: &[u8],
    text: &mut [u8],
    length: &mut [u32],
    said: &mut [u32],
) -> u32
    ensures { ListsAs edition1 card.now text.old text.new length.old length.new said.old said.new result }
{
    if said.len() != 3 {
        return told::tell(list::list(card, &mut [], length), said);
    }
    told::tell(list::list(card, text, length), said)
}
