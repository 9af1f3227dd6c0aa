// What C is told of an answer: its number, and in three places that are lent for it the values of a refusal; and three numbers in three places.
#![tactic(auto)]

ghost use Rattle.std.specs.Prelude.{◌≡◌, cond, [], ◌∷◌};
ghost use Rattle.std.proofs.Math.Option.{some};
ghost use Rattle.kinds.specs.Refusal.{said as said_by};
ghost use Rattle.told.specs.Told.{named};
ghost use Rattle.told.specs.Places.{Becomes, Tells};

use kinds::Refusal;

pub fn tell(answer: Result<(), Refusal>, said: &mut [u32]) -> u32
    ensures { Tells (said_by answer) said.old said.new result }
{
    match answer {
        Ok(()) => 0,
        Err(refusal) => tell_refusal(refusal, said),
    }
}

pub fn tell_refusal(refusal: Refusal, said: &mut [u32]) -> u32
    ensures { Tells (some refusal) said.old said.new result }
{
    name_values(refusal, said);
    refusal.into()
}

// The column and the mask of 4, and the two ports of 11 and 13.
fn name_values(refusal: Refusal, said: &mut [u32])
    ensures { Becomes (named (some refusal) said.old) said.old said.new }
{
    if said.len() != 3 {
        return;
    }
    match refusal {
        Refusal::Dependent(column, mask) => {
            said[1] = column;
            said[2] = mask;
        }
        Refusal::WriteClash(first, second) | Refusal::ReadClash(first, second) => {
            said[1] = first.0;
            said[2] = second.0;
        }
        _ => {}
    }
}

pub fn put_three(places: &mut [u32], first: u32, second: u32, third: u32)
    ensures { Becomes (first ∷ second ∷ third ∷ []) places.old places.new }
{
    if places.len() != 3 {
        return;
    }
    places.copy_from_slice(&[first, second, third]);
}

// Where a length is wrong: 1 if the sizes are too, else 2.
pub fn wrong_length(sized: bool) -> u32
    ensures { result ≡ cond sized 2 1 }
{
    if sized { 2 } else { 1 }
}
