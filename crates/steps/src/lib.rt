// The words that hold a step, and the steps that five lists of words hold.
#![tactic(auto)]

ghost use Rattle.std.specs.Prelude.{◌≡◌, [], ◌∷◌};
ghost use Rattle.steps.specs.Words.{with_index, encode, decode};
ghost use Rattle.steps.specs.Lists.{step_at};
ghost use Rattle.steps.specs.Stored.{StoredAt};

use lower::QPtrOp;
use spirv::Index;

// Kind 1 is H, 2 B, 3 O, 4 D. The bytes are a constant offset's, as a word, or a stride. Mark 0 is a known index, 1 an unknown.
// Kind and mark are words, and no enums: the lists are lists of words.
#[derive(Clone, Copy, Debug, Default, PartialEq, Eq, Hash)]
pub struct StepWords {
    pub kind: u32,
    pub bytes: u32,
    pub bound: u32,
    pub mark: u32,
    pub index: u32,
}

// ---- to words

fn with_index(kind: u32, bytes: u32, bound: u32, i: Index) -> StepWords
    ensures { result ≡ with_index kind bytes bound i }
{
    let [index, mark] = spirv::encode_index(i);
    StepWords {
        kind,
        bytes,
        bound,
        mark,
        index,
    }
}

// The words of a step. This and `step_of` are no From: an impl with its law is longer, and says what the clause here says.
pub fn words_of(s: QPtrOp) -> StepWords
    ensures { result ≡ encode s }
{
    match s {
        QPtrOp::HandleArrayIndex { index } => with_index(1, 0, 0, index),
        QPtrOp::BufferData => StepWords {
            kind: 2,
            ..StepWords::default()
        },
        QPtrOp::Offset(z) => StepWords {
            kind: 3,
            bytes: z.cast_unsigned(),
            ..StepWords::default()
        },
        QPtrOp::DynOffset {
            stride,
            bound,
            index,
        } => with_index(4, stride, bound, index),
    }
}

// ---- and back

// The step that words hold; a kind that is none of the four reads as B.
pub fn step_of(s: StepWords) -> QPtrOp
    ensures { result ≡ decode s }
{
    match s.kind {
        1 => QPtrOp::HandleArrayIndex {
            index: spirv::index_of(s.index, s.mark),
        },
        // by `as_signed`, whose contract names the number that the definition here names: with `cast_signed` the proof would be that contract's again
        3 => QPtrOp::Offset(arith::as_signed(s.bytes)),
        4 => QPtrOp::DynOffset {
            stride: s.bytes,
            bound: s.bound,
            index: spirv::index_of(s.index, s.mark),
        },
        _ => QPtrOp::BufferData,
    }
}

// ---- in five lists

// Five lists that hold steps, to be read: step j has its five words at place j. How many steps, goes beside them, here and in the crates above: a walk tells it when its lists are there, and to cut them to it would be five slices.
#[derive(Clone, Copy)]
pub struct Steps<'a> {
    pub kinds: &'a [u32],
    pub bytes: &'a [u32],
    pub bounds: &'a [u32],
    pub marks: &'a [u32],
    pub indices: &'a [u32],
}

impl Steps<'_> {
    // Step j.
    #[tactic(auto, unfolding(crate::specs::Lists::step_at))]
    pub fn at(&self, j: usize) -> QPtrOp
        ensures { result ≡ step_at self.now.kinds.now self.now.bytes.now self.now.bounds.now self.now.marks.now self.now.indices.now j }
    {
        step_of(StepWords {
            kind: spirv::word_at(self.kinds, j),
            bytes: spirv::word_at(self.bytes, j),
            bound: spirv::word_at(self.bounds, j),
            mark: spirv::word_at(self.marks, j),
            index: spirv::word_at(self.indices, j),
        })
    }
}

// A step at place n of the five lists. They are lent apart, here and in the crates above: document 01 names five parallel slices, and a struct of `&mut` lists proves inside the functions that take it, but nothing is known of its maker's lists afterwards.
pub fn store(
    s: QPtrOp,
    n: usize,
    kinds: &mut [u32],
    bytes: &mut [u32],
    bounds: &mut [u32],
    marks: &mut [u32],
    indices: &mut [u32],
)
    ensures { StoredAt n (s ∷ []) kinds.old bytes.old bounds.old marks.old indices.old kinds.new bytes.new bounds.new marks.new indices.new }
{
    let w = words_of(s);
    spirv::put_word(kinds, n, w.kind);
    spirv::put_word(bytes, n, w.bytes);
    spirv::put_word(bounds, n, w.bound);
    spirv::put_word(marks, n, w.mark);
    spirv::put_word(indices, n, w.index);
}
