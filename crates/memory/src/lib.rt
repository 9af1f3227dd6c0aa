// The memory of a run, and what a call does to it, for any cells that it writes and reads.
#![tactic(auto)]

ghost use Rattle.std.specs.Prelude.{◌≡◌, length, set};
ghost use Rattle.std.proofs.Math.Decide.{dec_le, ℕ_discrete};
ghost use Rattle.kinds.specs.Answers.{Says, over_front, if_holds};
ghost use Rattle.faults.specs.Marks.{put, with_marks};
ghost use Rattle.memory.specs.Memory.{words_at, Fitting};
ghost use Rattle.memory.specs.Serving.{Serves};

use kinds::Refusal;

// The core of a call: which cells are written with which words, and which are read. Everything is looked at before anything is changed. 2 unless there is a word for each cell that is
// written, and a place in `out` for each that is read, and 2 where there are more cells than ports have numbers; then 11 to 14, 12 judged on the marks as they came or, where `after`
// says so, after the read.
// The words and the marks are two buffers since C lends them so; a struct of two `&mut` would need a clause more wherever it is lent on, that both still point where they did.
pub fn serve(
    after: bool,
    k: u32,
    writes: &[u32],
    came: &[u32],
    reads: &[u32],
    out: &mut [u32],
    words: &mut [u32],
    marks: &mut [u8],
) -> Result<(), Refusal>
    ensures { Serves after k (record { writes = writes.now; words = came.now; reads = reads.now })
        (record { words = words.old; marks = marks.old }) out.old result
        (record { words = words.new; marks = marks.new }) out.new }
{
    if !fitting(writes.len(), came.len(), reads.len(), out.len()) {
        return Err(Refusal::Length);
    }
    faults::first_fault(after, k, writes, reads, marks)?;
    take_out(reads, out, words, marks);
    store(writes, came, words, marks);
    Ok(())
}

fn fitting(writes: usize, came: usize, reads: usize, out: usize) -> bool
    ensures { Says result (Fitting writes came reads out) }
{
    came == writes && reads <= out
}

// Out of each cell goes its word, and its mark is cleared; a cell beyond the memory has the word 0. Where `out` has too few places nothing is changed.
pub fn take_out(cells: &[u32], out: &mut [u32], words: &[u32], marks: &mut [u8])
    ensures out_after { out.new ≡ if_holds (dec_le (length cells.now) (length out.old))
        (over_front (words_at cells.now words.now) out.old) out.old }
    ensures marks_after { marks.new ≡ if_holds (dec_le (length cells.now) (length out.old))
        (with_marks 0 cells.now marks.old) marks.old }
{
    if out.len() < cells.len() {
        return;
    }
    for (p, cell) in cells.iter().enumerate() {
        let at = *cell as usize;
        out[p] = words.get(at).copied().unwrap_or(0);
        put_at(marks, at, 0);
    }
}

// Into each cell goes a word, with mark 1. Unless there is a word for each cell nothing is changed.
pub fn store(cells: &[u32], came: &[u32], words: &mut [u32], marks: &mut [u8])
    ensures words_after { words.new ≡ if_holds (ℕ_discrete (length came.now) (length cells.now))
        (put cells.now came.now words.old) words.old }
    ensures marks_after { marks.new ≡ if_holds (ℕ_discrete (length came.now) (length cells.now))
        (with_marks 1 cells.now marks.old) marks.old }
{
    if came.len() != cells.len() {
        return;
    }
    for (p, cell) in cells.iter().enumerate() {
        let at = *cell as usize;
        put_at(words, at, came[p]);
        put_at(marks, at, 1);
    }
}

// Beyond the memory nothing is put.
fn put_at<T: Copy>(places: &mut [T], at: usize, value: T)
    ensures { places.new ≡ set places.old at value }
{
    if at < places.len() {
        places[at] = value;
    }
}
