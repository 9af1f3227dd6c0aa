// What a call is lent: its lengths, and what is refused before its cells are looked at.
#![tactic(auto)]

ghost use Rattle.std.specs.Prelude.{◌≡◌, ◌+◌, ◌^◌};
ghost use Rattle.kinds.specs.Answers.{Says};
ghost use Rattle.kinds.specs.Edition.{edition1};
ghost use Rattle.kinds.specs.First.{first_of};
ghost use Rattle.kinds.specs.Lengths.{RightLengths};
ghost use Rattle.kinds.specs.Refusal.{said};
ghost use Rattle.kinds.specs.Sizes.{AreSizes};
ghost use Rattle.lent.specs.Lent.{run_lengths, call_table};

use kinds::{Refusal, Sizes};
use state::State;

// The lengths that a call is lent: of the words that came, of the out buffer, and of the words and the marks of the memory.
#[derive(Clone, Copy, Debug, PartialEq, Eq)]
pub struct Lengths {
    pub came: usize,
    pub out: usize,
    pub words: usize,
    pub marks: usize,
}

// 1, 2 and 10, and the sizes where none applies.
pub fn check(n: u32, k: u32, state: State, lengths: Lengths) -> Result<Sizes, Refusal>
    ensures answer { said result ≡ first_of (call_table edition1 n k state lengths) }
    ensures sizes { AreSizes n k result }
{
    let sizes = Sizes::new(n, k)?;
    if !lengths_fit(n, k, lengths) {
        return Err(Refusal::Length);
    }
    if !state.possible(sizes.ticks()) {
        return Err(Refusal::State);
    }
    Ok(sizes)
}

// Whether the lengths that a call is lent are right.
pub fn lengths_fit(n: u32, k: u32, lengths: Lengths) -> bool
    ensures { Says result (RightLengths (run_lengths n k lengths)) }
{
    of_memory(lengths.words, n)
        && of_memory(lengths.marks, n)
        && bits::is_two_to(lengths.out, k)
        && (lengths.came == 0 || bits::is_two_to(lengths.came, k))
}

// Whether a length is that of the memory. None is for n beyond 63, and up to there n + 1 fits.
fn of_memory(length: usize, n: u32) -> bool
    ensures { Says result (length ≡ 2 ^ (n + 1)) }
{
    n <= 63 && bits::is_two_to(length, n + 1)
}
