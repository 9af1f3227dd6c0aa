// Sheets: the places of one, and the check of its layout.
#![tactic(auto)]

ghost use Rattle.std.specs.Prelude.{◌≡◌, ◌≤◌, ◌+◌, ◌*◌, length, take, min};
ghost use Rattle.kinds.specs.Answers.{Says, Checks};
ghost use Rattle.kinds.specs.Edition.{edition1};
ghost use Rattle.kinds.specs.Sizes.{AreSizes};
ghost use Rattle.sheet.specs.Sheet.{stages_in};
ghost use Rattle.sheet.specs.Layout.{StageInRange, EachStage, FormedSide};
ghost use Rattle.sheet.specs.Table.{sheet_table};
ghost use Rattle.sheet.specs.Inside.{Whole, IsStageAt, most_stages_in};

use few::{Blank, Few};
use kinds::{Refusal, Sizes};

// The places of edition 1, as 01's table has them: address columns from 0 on, then these.
pub const WIRING: usize = kinds::MOST_N as usize;

pub const COUNT: usize = WIRING + kinds::MOST_K as usize;

pub const STAGES: usize = COUNT + 1;

pub const MOST_STAGES: usize = 8;

pub const SIDE: usize = STAGES + 2 * MOST_STAGES;

pub const SHEET: usize = 2 * SIDE;

// The direction that a stage xors into the bank, and the control that says on which ticks.
#[derive(Clone, Copy, Debug, PartialEq, Eq, Default)]
pub struct Stage {
    pub direction: u16,
    pub control: u16,
}

impl Blank for Stage {
    ghost blank = { record { direction = 0; control = 0 } };

    fn blank() -> Stage {
        Stage {
            direction: 0,
            control: 0,
        }
    }
}

// As many stages as a side may have, or fewer.
pub type Stages = Few<Stage, MOST_STAGES>;

// 1, 2 and 5, and the sizes where none applies. `fits` says whether every other length that the tool was lent is right.
pub fn check(n: u32, k: u32, sheet: &[u16], fits: bool) -> Result<Sizes, Refusal>
    ensures answer { Checks (sheet_table edition1 n k sheet.now) fits result }
    ensures sizes { AreSizes n k result }
{
    let sizes = Sizes::new(n, k)?;
    if !fits || sheet.len() != SHEET {
        return Err(Refusal::Length);
    }
    if !side_formed(sizes, &sheet[..SIDE]) || !side_formed(sizes, &sheet[SIDE..]) {
        return Err(Refusal::Layout);
    }
    Ok(sizes)
}

// Goes through 01's table of a side: each part that is used, and what is left of its places.
fn side_formed(sizes: Sizes, side: &[u16]) -> bool
    requires { Whole edition1 side.now }
    ensures { Says result (FormedSide edition1 sizes.n sizes.k side.now) }
{
    let addresses_end = sizes.n as usize;
    let wiring_end = WIRING + sizes.k as usize;
    let count = side[COUNT] as usize;
    count <= MOST_STAGES
        && bits::within_bits(&side[..addresses_end], sizes.tick_bits())
        && bits::within_bits(&side[addresses_end..WIRING], 0)
        && bits::within_bits(&side[WIRING..wiring_end], sizes.k)
        && bits::within_bits(&side[wiring_end..COUNT], 0)
        && stages_formed(&side[STAGES..], count, sizes.ports(), sizes.ticks())
        && bits::within_bits(&side[STAGES + 2 * count..], 0)
}

// Whether each stage is in range; a stage that there are no two places for has a 0.
pub fn stages_formed(places: &[u16], count: usize, ports: u32, ticks: u32) -> bool
    ensures { Says result (EachStage (StageInRange ports ticks) (stages_in count places.now)) }
{
    if places.len() / 2 < count {
        return false;
    }
    for s in 0..count {
        if !in_range(stage_at(places, s), ports, ticks) {
            return false;
        }
    }
    true
}

// A direction is below ports, a control below ticks, and neither is 0.
pub fn in_range(stage: Stage, ports: u32, ticks: u32) -> bool
    ensures { Says result (StageInRange ports ticks stage) }
{
    let direction = u32::from(stage.direction);
    let control = u32::from(stage.control);
    1 <= direction && direction < ports && 1 <= control && control < ticks
}

// Stage s of those that stand at these places, two each; zeros where there are no two places for it.
pub fn stage_at(places: &[u16], s: usize) -> Stage
    ensures { IsStageAt places.now s result }
{
    if places.len() / 2 <= s {
        return Stage {
            direction: 0,
            control: 0,
        };
    }
    Stage {
        direction: places[2 * s],
        control: places[2 * s + 1],
    }
}

// The first stages that stand at these places, as many as a side may have and as there are places for.
pub fn stages_of(places: &[u16], count: usize) -> Stages
    ensures { result.items ≡ stages_in (most_stages_in count places.now) places.now }
{
    let mut stages = [Stage::default(); MOST_STAGES];
    for s in 0..MOST_STAGES {
        stages[s] = stage_at(places, s);
    }
    Stages::first(stages, count.min(places.len() / 2))
}
