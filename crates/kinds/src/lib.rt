// The board's vocabulary: four kinds of number, the sizes, and the ways a tool says no.
#![tactic(auto)]

ghost use Rattle.std.specs.Prelude.{◌≡◌, IsOk};
ghost use Rattle.kinds.specs.Answers.{Says};
ghost use Rattle.kinds.specs.Edition.{edition1, SizedN, Sized};
ghost use Rattle.kinds.specs.Refusal.{number_of};

mod sizes;

pub use sizes::Sizes;

// "A cycle number may never stand where a port number belongs" (01): the compiler refuses one for another.
#[derive(Clone, Copy, Debug, PartialEq, Eq)]
pub struct Tick(pub u32);

#[derive(Clone, Copy, Debug, PartialEq, Eq)]
pub struct Port(pub u32);

#[derive(Clone, Copy, Debug, PartialEq, Eq)]
pub struct Bank(pub u32);

#[derive(Clone, Copy, Debug, PartialEq, Eq)]
pub struct Addr(pub u32);

// A case for each number of 01's table. 4 names the first column that is a sum of earlier ones, and the mask that says of which (02, R-8); 11 and 13 name the first two ports that want one bank.
#[derive(Clone, Copy, Debug, PartialEq, Eq)]
pub enum Refusal {
    Sizes,
    Length,
    TooLarge,
    Dependent(u32, u32),
    Layout,
    WriteWiring,
    ReadWiring,
    SharedCell,
    Differs,
    State,
    WriteClash(Port, Port),
    Overwrite,
    ReadClash(Port, Port),
    EmptyRead,
    Card,
}

// Whether a tool is done, whatever it answers besides.
pub fn is_done<T>(answer: &Result<T, Refusal>) -> bool
    ensures { Says result (IsOk answer.now) }
{
    answer.is_ok()
}

// The number that 01 gives a refusal.
impl From<Refusal> for u32 {
    ghost from_gives = { λ refusal number. number ≡ number_of refusal };

    fn from(refusal: Refusal) -> u32 {
        match refusal {
            Refusal::Sizes => 1,
            Refusal::Length => 2,
            Refusal::TooLarge => 3,
            Refusal::Dependent(_, _) => 4,
            Refusal::Layout => 5,
            Refusal::WriteWiring => 6,
            Refusal::ReadWiring => 7,
            Refusal::SharedCell => 8,
            Refusal::Differs => 9,
            Refusal::State => 10,
            Refusal::WriteClash(_, _) => 11,
            Refusal::Overwrite => 12,
            Refusal::ReadClash(_, _) => 13,
            Refusal::EmptyRead => 14,
            Refusal::Card => 15,
        }
    }
}

pub const MOST_N: u32 = 10;

pub const MOST_K: u32 = 5;

// Room for the ports of a tick.
pub const MOST_PORTS: usize = 1 << MOST_K;

pub fn sized_n(n: u32) -> bool
    ensures { Says result (SizedN edition1 n) }
{
    1 <= n && n <= MOST_N
}

pub fn sized(n: u32, k: u32) -> bool
    ensures { Says result (Sized edition1 n k) }
{
    sized_n(n) && 1 <= k && k <= n.min(MOST_K)
}
