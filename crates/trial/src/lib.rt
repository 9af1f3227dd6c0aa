// An order tried out: planned, and words 0 to 2^n - 1 run through its sheet (01, 'The order card').
#![tactic(auto)]

ghost use Rattle.std.specs.Prelude.{◌≡◌, [], ◌∷◌, ◌^◌, ◌≤◌, length};
ghost use Rattle.kinds.specs.Answers.{Says};
ghost use Rattle.kinds.specs.Edition.{edition1, sheet_places};
ghost use Rattle.kinds.specs.Frame.{ticks, in_order};
ghost use Rattle.kinds.specs.Lengths.{exactly, RightLengths};
ghost use Rattle.call.specs.Tool.{state_after};
ghost use Rattle.trial.specs.Trial.{Tries};
ghost use Rattle.trial.specs.Inside.{frame_handed, Here, Numbered, Entering, Leaving};

use call::Ran;
use kinds::{MOST_PORTS, Refusal, Sizes};
use state::State;

// Room for the two halves of the memory.
const MEMORY: usize = 2 << kinds::MOST_N;

// The order's sheet, and the words 0 to 2^n - 1 as the run hands them out, place by place. 1 to 4.
pub fn trial(
    n: u32,
    k: u32,
    columns: &[u16],
    sheet: &mut [u16],
    frame: &mut [u32],
) -> Result<(), Refusal>
    ensures { Tries edition1 n k columns.now sheet.old sheet.new frame.old frame.new result }
{
    let fits = lent_right(n, sheet.len(), frame.len());
    let sizes = order::check_with_k(n, k, columns, fits)?;
    plan::plan(n, k, columns, sheet)?;
    number_words(frame);
    run_frame(sizes, sheet, frame);
    Ok(())
}

fn lent_right(n: u32, sheet: usize, frame: usize) -> bool
    ensures { Says result (RightLengths ((sheet, exactly (sheet_places edition1)) ∷ (frame, exactly (2 ^ n)) ∷ [])) }
{
    sheet == sheet::SHEET && bits::is_two_to(frame, n)
}

fn number_words(frame: &mut [u32])
    requires { length frame.old ≤ 2 ^ 32 }
    ensures { frame.new ≡ in_order (length frame.old) (λ i. i) }
{
    for (i, word) in frame.iter_mut().enumerate() {
        *word = i as u32;
    }
}

// The frame goes in, tick by tick, and comes back in order.
fn run_frame(sizes: Sizes, sheet: &[u16], frame: &mut [u32])
    requires { Numbered sizes.n sizes.k sheet.now frame.old }
    ensures { frame.new ≡ frame_handed sizes.n sizes.k sheet.now }
{
    let mut words = [0; MEMORY];
    let mut marks = [0; MEMORY];
    let mut out = [0; MOST_PORTS];
    let places = 2 * frame.len();
    let ports = sizes.ports() as usize;
    let words = &mut words[..places];
    let marks = &mut marks[..places];
    let state = take_in(sizes, sheet, frame, &mut out[..ports], words, marks);
    hand_out(sizes, sheet, state, frame, words, marks);
}

fn take_in(
    sizes: Sizes,
    sheet: &[u16],
    frame: &[u32],
    out: &mut [u32],
    words: &mut [u32],
    marks: &mut [u8],
) -> State
    requires { Entering sizes.n sizes.k sheet.now frame.now out.old words.old marks.old }
    ensures { Here sizes.n sizes.k sheet.now (ticks sizes.n sizes.k) result words.new marks.new }
{
    let mut state = State {
        a: 0,
        h: 0,
        r: sizes.ticks(),
    };
    for came in frame.chunks(out.len()) {
        let answer = run::tick(sizes.n, sizes.k, sheet, state, came, out, words, marks);
        state = after(state, answer);
    }
    state
}

fn after(state: State, answer: Result<Ran, Refusal>) -> State
    ensures { result ≡ state_after state answer }
{
    match answer {
        Ok(ran) => ran.state,
        Err(_) => state,
    }
}

// Blank ticks, until the whole frame has been handed out.
fn hand_out(
    sizes: Sizes,
    sheet: &[u16],
    state: State,
    frame: &mut [u32],
    words: &mut [u32],
    marks: &mut [u8],
)
    requires { Leaving sizes.n sizes.k sheet.now state frame.old words.old marks.old }
    ensures { frame.new ≡ frame_handed sizes.n sizes.k sheet.now }
{
    let ports = sizes.ports() as usize;
    let mut state = state;
    for c in 0..sizes.ticks() as usize {
        let place = c * ports;
        let out = &mut frame[place..place + ports];
        let answer = run::tick(sizes.n, sizes.k, sheet, state, &[], out, words, marks);
        state = after(state, answer);
    }
}
