// One call of a run over any two opened sides: the words that came go in by the one, and the next tick of the frame before, if one is left, goes out by the other.
#![tactic(auto)]

ghost use Rattle.std.specs.Prelude.{◌≡◌, ◌^◌, ◌≤◌, length};
ghost use Rattle.kinds.specs.Edition.{edition1};
ghost use Rattle.call.specs.Tool.{Calls};
ghost use Rattle.call.specs.Inside.{most_ports, ListsPlaces};

use kinds::{MOST_PORTS, Refusal, Tick};
use lent::Lengths;
use maps::OpenSide;
use state::State;

// What a call that is done answers: the new state, and whether a tick was handed out.
#[derive(Clone, Copy, Debug, PartialEq, Eq)]
pub struct Ran {
    pub state: State,
    pub handed: bool,
}

// 1, 2 and 10, and then 11 to 14; the marks are judged as they came.
pub fn call(
    n: u32,
    k: u32,
    write: &OpenSide,
    read: &OpenSide,
    state: State,
    came: &[u32],
    out: &mut [u32],
    words: &mut [u32],
    marks: &mut [u8],
) -> Result<Ran, Refusal>
    ensures { Calls edition1 n k write.now read.now
        (record { state = state; came = came.now; memory = record { words = words.old; marks = marks.old }; out = out.old })
        (record { answer = result; memory = record { words = words.new; marks = marks.new }; out = out.new }) }
{
    let lengths = Lengths {
        came: came.len(),
        out: out.len(),
        words: words.len(),
        marks: marks.len(),
    };
    let sizes = lent::check(n, k, state, lengths)?;
    let ticks = sizes.ticks();
    let half = sizes.words();
    let handed = state.r < ticks;
    let arriving = came.len();
    let leaving = if handed { out.len() } else { 0 };
    let mut writes = [0; MOST_PORTS];
    let mut reads = [0; MOST_PORTS];
    let writes = &mut writes[..arriving];
    let reads = &mut reads[..leaving];
    let into = state.h * half;
    let from = (1 - state.h) * half;
    places_of(write, Tick(state.a), into, writes);
    places_of(read, Tick(state.r), from, reads);
    memory::serve(false, k, writes, came, reads, out, words, marks)?;
    Ok(Ran {
        state: state.next(ticks, came),
        handed,
    })
}

// The cells of a tick, as places of the memory. Where no words come or leave there is no room for a tick's cells, `cells` refuses, and the list stays empty.
fn places_of(side: &OpenSide, tick: Tick, base: u32, places: &mut [u32])
    requires places_len_bound { length places.old ≤ most_ports }
    requires base_bound { base ≤ 2 ^ 16 }
    ensures { ListsPlaces side.now tick.0 base places.old places.new }
{
    let mut cells = [0; MOST_PORTS];
    let cells = &mut cells[..places.len()];
    let _ = side.cells(tick, cells);
    for (p, cell) in cells.iter().enumerate() {
        places[p] = base + u32::from(*cell);
    }
}
