// The mover: a whole frame put in order in a second buffer.
#![tactic(auto)]

ghost use Rattle.std.specs.Prelude.{[], ◌∷◌, ◌^◌, ◌≤◌, length};
ghost use Rattle.kinds.specs.Answers.{Says};
ghost use Rattle.kinds.specs.Edition.{edition1};
ghost use Rattle.kinds.specs.Lengths.{exactly, RightLengths};
ghost use Rattle.span.specs.Tools.{most_scanned};
ghost use Rattle.order.specs.Order.{Moved};
ghost use Rattle.mover.specs.Tool.{Moves};
ghost use Rattle.mover.specs.Inside.{Steps, TwoFrames};

use kinds::Refusal;

// 1 to 4.
pub fn move_frame(n: u32, columns: &[u16], frame: &[u32], out: &mut [u32]) -> Result<(), Refusal>
    ensures { Moves edition1 n columns.now frame.now out.old out.new result }
{
    let fits = are_frames(n, frame.len(), out.len());
    order::check(n, columns, fits)?;
    move_words(columns, frame, out);
    Ok(())
}

fn are_frames(n: u32, came: usize, leaves: usize) -> bool
    ensures { Says result (RightLengths ((came, exactly (2 ^ n)) ∷ (leaves, exactly (2 ^ n)) ∷ [])) }
{
    bits::is_two_to(came, n) && bits::is_two_to(leaves, n)
}

// From each number to the next the place changes by one step.
fn move_words(columns: &[u16], frame: &[u32], out: &mut [u32])
    requires { TwoFrames (length columns.now) columns.now frame.now out.old }
    ensures { Moved (length columns.now) columns.now frame.now out.new }
{
    let steps = steps_of(columns);
    let mut place = 0;
    for (i, word) in frame.iter().enumerate() {
        out[place as usize] = *word;
        let zeros = (i as u64 + 1).trailing_zeros() as usize;
        place ^= steps[zeros];
    }
}

// One place more than columns: the last step of all, from the last word, is read and not used.
fn steps_of(columns: &[u16]) -> [u16; 17]
    requires { length columns.now ≤ most_scanned }
    ensures { Steps columns.now result }
{
    let mut steps = [0; 17];
    let mut sum = 0;
    for (j, column) in columns.iter().enumerate() {
        sum ^= *column;
        steps[j] = sum;
    }
    steps
}
