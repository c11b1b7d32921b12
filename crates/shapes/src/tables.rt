// A sheet's tables, as they travel from function to function: lists of words that a caller lends.
ghost use Rattle.std.specs.Prelude.{◌≡◌};
ghost use Rattle.shapes.specs.Rows.{answer_at};

use crate::{LayoutConfig, TypeLayout, rows};
use arith::refusal::Refusal;

// The layouts of so many types, a row of ten words each, and the two lists of which a struct's fields are spans: their offsets and their types. The count stands
// beside the rows since the lists that C lends are of a fixed size. A struct's two spans are taken where they are used, in three crates: a pair of them would be
// taken apart at each.
#[derive(Clone, Copy)]
pub struct Layouts<'a> {
    pub rows: &'a [u32],
    pub count: u32,
    pub offsets: &'a [u32],
    pub members: &'a [u32],
}

impl Layouts<'_> {
    // The answer of type t.
    #[inline(always)]
    pub fn answer_at(&self, t: u32) -> Result<TypeLayout, Refusal>
        ensures { result ≡ answer_at self.now.rows.now self.now.count t }
    {
        rows::answer_at(self.rows, self.count, t)
    }
}

// The setting, and the types, a row of six words each, beside their layouts.
#[derive(Clone, Copy)]
pub struct Tables<'a> {
    pub cfg: LayoutConfig,
    pub types: &'a [u32],
    pub layouts: Layouts<'a>,
}
