// Text goes into a lent slice at a place. What lies past the slice's end is left out; the answer is the place after the text either way.
// So one function both measures, on an empty slice, and writes.
// It is no `Display`: the contracts say which bytes stand where, and a formatter knows no place. The slice and the place are lent apart, since of the `&mut` slice in a struct its maker knows nothing afterwards.
#![tactic(auto)]

ghost use Rattle.std.specs.Prelude.{[], ◌∷◌};
ghost use Rattle.text.specs.Printed.{Printed};

use arith::lists;

// One byte, as `spirv::put_word` a word; the next place is the answer here.
pub fn byte(out: &mut [u8], at: usize, b: u8) -> usize
    ensures { Printed (b ∷ []) out.old at result out.new }
{
    // by index: of what is written through a slice's get_mut a proof knows nothing
    if at < out.len() {
        out[at] = b;
    }
    at.saturating_add(1)
}

// The bytes of s.
pub fn bytes(out: &mut [u8], at: usize, s: &[u8]) -> usize
    ensures { Printed s.now out.old at result out.new }
{
    lists::put(out, at, s);
    at.saturating_add(s.len())
}
