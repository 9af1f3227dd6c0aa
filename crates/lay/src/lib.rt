// Stages, and sides as they are laid out on a sheet.
#![tactic(auto)]

ghost use Rattle.std.specs.Prelude.{◌≡◌, ◌*◌, ◌≤◌, length, take};
ghost use Rattle.kinds.specs.Edition.{edition1};
ghost use Rattle.bits.specs.Padded.{padded_to};
ghost use Rattle.sheet.specs.Sheet.{flat};
ghost use Rattle.lay.specs.Staged.{pairs, Lays};

use sheet::Stage;
pub use sheet::Stages;

// A direction with each control, as long as there are both and a side may have the stage.
pub fn pair_up(directions: &[u16], controls: &[u16]) -> Stages
    ensures { result.items ≡ take edition1.most_stages (pairs directions.now controls.now) }
{
    let mut stages = Stages::new();
    for (direction, control) in directions.iter().zip(controls) {
        if stages.is_full() {
            break;
        }
        stages.add(Stage {
            direction: *direction,
            control: *control,
        });
    }
    stages
}

// A side with these columns, as many as it has places for, and these stages. Unless `side` is all places of a side, nothing is written.
pub fn lay_out(addresses: &[u16], wiring: &[u16], stages: &Stages, side: &mut [u16])
    ensures { Lays addresses.now wiring.now stages.now.items side.old side.new }
{
    if side.len() != sheet::SIDE {
        return;
    }
    bits::pad_into(addresses, &mut side[..sheet::WIRING]);
    bits::pad_into(wiring, &mut side[sheet::WIRING..sheet::COUNT]);
    side[sheet::COUNT] = stages.len() as u16;
    put_stages(stages.as_slice(), &mut side[sheet::STAGES..]);
}

// The numbers of the stages, two each, and zeros after them.
fn put_stages(stages: &[Stage], places: &mut [u16])
    requires { 2 * length stages.now ≤ length places.old }
    ensures { places.new ≡ padded_to (length places.old) (flat stages.now) }
{
    for (s, stage) in stages.iter().enumerate() {
        places[2 * s] = stage.direction;
        places[2 * s + 1] = stage.control;
    }
    places[2 * stages.len()..].fill(0);
}
