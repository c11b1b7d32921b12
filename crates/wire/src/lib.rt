// Indices and steps as bytes: how a host hands them over and takes them.
#![tactic(auto)]

ghost use Rattle.std.specs.Prelude.{◌≡◌};
ghost use Rattle.text.specs.Printed.{Printed};
ghost use Rattle.steps.specs.Lists.{steps_in};
ghost use Rattle.wire.specs.Wire.{formed_bytes, words_bytes, steps_bytes};

use lower::QPtrOp;
use steps::{StepWords, Steps};

// Whether bytes are indices, eight bytes each.
pub fn formed(s: &[u8]) -> bool
    ensures { result ≡ formed_bytes s.now }
{
    s.len() % 8 == 0 && s.chunks_exact(8).all(|c| words::read_word(c, 4) <= 1)
}

// The five words of a step. Calls in a row: a loop would need an array of them, made for each step.
fn put_five(out: &mut [u8], at: usize, w: StepWords) -> usize
    ensures { Printed (words_bytes w) out.old at result out.new }
{
    let a = words::put_word(out, at, w.kind);
    let b = words::put_word(out, a, w.bytes);
    let c = words::put_word(out, b, w.bound);
    let d = words::put_word(out, c, w.mark);
    words::put_word(out, d, w.index)
}

// The first `count` steps of five lists, printed as the crate `text` prints. Beside `cells::first_steps`, which says why.
pub fn put_steps(out: &mut [u8], at: usize, steps: &Steps<'_>, count: usize) -> usize
    ensures { Printed (steps_bytes (steps_in steps.now.kinds.now steps.now.bytes.now steps.now.bounds.now steps.now.marks.now steps.now.indices.now count)) out.old at result out.new }
{
    let mut p = at;
    // by index: a step has a word in each of five lists
    for j in 0..count {
        p = put_five(out, p, steps::words_of(steps.at(j)));
    }
    p
}
