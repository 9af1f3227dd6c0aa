// The run: one tick of any sheet.
#![tactic(auto)]

ghost use Rattle.kinds.specs.Edition.{edition1};
ghost use Rattle.run.specs.Tool.{ChecksRun, Runs};

use call::Ran;
use kinds::Refusal;
use lent::Lengths;
use maps::Sides;
use state::State;

// One call: the words that came, none of them on a blank tick, go in, and the next tick of the frame before, if one is left, goes out. 1, 2, 5 and 10 to 14.
pub fn tick(
    n: u32,
    k: u32,
    sheet: &[u16],
    state: State,
    came: &[u32],
    out: &mut [u32],
    words: &mut [u32],
    marks: &mut [u8],
) -> Result<Ran, Refusal>
    ensures { Runs edition1 n k sheet.now
        (record { state = state; came = came.now; memory = record { words = words.old; marks = marks.old }; out = out.old })
        (record { answer = result; memory = record { words = words.new; marks = marks.new }; out = out.new }) }
{
    let lengths = Lengths {
        came: came.len(),
        out: out.len(),
        words: words.len(),
        marks: marks.len(),
    };
    // the sides are looked at where they are: a question mark would copy them
    let checked = check(n, k, sheet, state, lengths);
    match &checked {
        Ok(sides) => call::call(
            n,
            k,
            &sides.write,
            &sides.read,
            state,
            came,
            out,
            words,
            marks,
        ),
        Err(refusal) => Err(*refusal),
    }
}

// What comes before the faults: 1, 2, 5 and 10, and both sides, opened, where none applies.
pub fn check(
    n: u32,
    k: u32,
    sheet: &[u16],
    state: State,
    lengths: Lengths,
) -> Result<Sides, Refusal>
    ensures { ChecksRun edition1 n k sheet.now state lengths result }
{
    let fits = lent::lengths_fit(n, k, lengths);
    let opened = maps::open(n, k, sheet, fits);
    if opened.is_ok() && !state.possible(bits::two_to(n - k)) {
        return Err(Refusal::State);
    }
    opened
}
