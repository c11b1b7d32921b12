// Fields of an answer line, each behind a comma.
#![tactic(auto)]

ghost use Rattle.std.specs.Prelude.{[], ◌∷◌, map};
ghost use Rattle.text.specs.Printed.{Printed};
ghost use Rattle.decimal.specs.Decimal.{decimal, signed_decimal};
ghost use Rattle.answers.specs.Lines.{index_field, step_fields, steps_fields};
ghost use Rattle.steps.specs.Lists.{steps_in};
ghost use Rattle.cells.specs.Behind.{behind};

use lower::QPtrOp;
use spirv::Index;
use steps::Steps;

// A number. Slice and place are lent apart, as `text` says at its head.
pub fn number(out: &mut [u8], at: usize, n: u32) -> usize
    ensures { Printed (behind (decimal n ∷ [])) out.old at result out.new }
{
    let digits = text::byte(out, at, b',');
    decimal::print_unsigned(out, digits, n)
}

// The numbers of a list.
pub fn numbers(out: &mut [u8], at: usize, ns: &[u32]) -> usize
    ensures { Printed (behind (map decimal ns.now)) out.old at result out.new }
{
    let mut p = at;
    for n in ns {
        p = number(out, p, *n);
    }
    p
}

// An index as given: a known word unsigned, an unknown with its `v`.
pub fn index(out: &mut [u8], at: usize, i: Index) -> usize
    ensures { Printed (behind (index_field i ∷ [])) out.old at result out.new }
{
    match i {
        Index::Known(w) => number(out, at, w),
        Index::Unknown(v) => {
            let digits = text::bytes(out, at, b",v");
            decimal::print_unsigned(out, digits, v)
        }
    }
}

// Beside `number`: an i32 has a printer of its own, and a trait over both is longer than these two lines.
fn signed(out: &mut [u8], at: usize, z: i32) -> usize
    ensures { Printed (behind (signed_decimal z ∷ [])) out.old at result out.new }
{
    let number = text::byte(out, at, b',');
    decimal::print_signed(out, number, z)
}

fn dyn_offset(out: &mut [u8], at: usize, stride: u32, bound: u32, i: Index) -> usize
    ensures { Printed (behind (step_fields (QPtrOp.DynOffset stride bound i))) out.old at result out.new }
{
    let a = text::bytes(out, at, b",D");
    let b = number(out, a, stride);
    let c = number(out, b, bound);
    index(out, c, i)
}

// A step.
pub fn step(out: &mut [u8], at: usize, s: QPtrOp) -> usize
    ensures { Printed (behind (step_fields s)) out.old at result out.new }
{
    match s {
        QPtrOp::HandleArrayIndex { index: i } => {
            let a = text::bytes(out, at, b",H");
            index(out, a, i)
        }
        QPtrOp::BufferData => text::bytes(out, at, b",B"),
        QPtrOp::Offset(bytes) => {
            let a = text::bytes(out, at, b",O");
            signed(out, a, bytes)
        }
        QPtrOp::DynOffset {
            stride,
            bound,
            index: i,
        } => dyn_offset(out, at, stride, bound, i),
    }
}

// The first `count` steps of five lists. The loop of `wire::put_steps` has another printer: one function over both would take it as a closure, with a contract that the proofs of both cite, and the loop is four lines.
pub fn first_steps(out: &mut [u8], at: usize, steps: &Steps<'_>, count: usize) -> usize
    ensures { Printed (behind (steps_fields (steps_in steps.now.kinds.now steps.now.bytes.now steps.now.bounds.now steps.now.marks.now steps.now.indices.now count))) out.old at result out.new }
{
    let mut p = at;
    // by index: a step has a word in each of five lists
    for j in 0..count {
        p = step(out, p, steps.at(j));
    }
    p
}
