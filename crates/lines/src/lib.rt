// What a line of a sheet says.
#![tactic(auto, using(crate::proofs::Left::in_turn), unfolding(sheet::specs::Grammar::grammar))]

ghost use Rattle.std.specs.Prelude.{◌≡◌, List, [], ℕ, ◌+◌, set, Option};
ghost use Rattle.std.proofs.Math.Option as math;
ghost use Rattle.std.proofs.lemmas.List.Edits.{sets};
ghost use Rattle.sheet.specs.Fields.{read_type, read_op, read_index, read_all, end};
ghost use Rattle.sheet.specs.Grammar.{Asked, declare, read_line};
ghost use Rattle.fields.specs.declared.Field.{Field};
ghost use Rattle.fields.specs.Pieces.{behind};
ghost use Rattle.fields.specs.Took.{Took};
ghost use Rattle.lines.specs.Says.{count_of, question_of, Says, SaysAs, counted_from, Stored};

use fields::{Field, ReadField};
use shapes::LayoutConfig;
use spirv::{ChainOp, Index, Length, MemberDecoration, SpvType, Stride};

// A question, by its letter. A chain's indices stand behind it: this many.
#[derive(Clone, Copy, Debug, PartialEq, Eq, Hash)]
pub enum Ask {
    T(u32),
    E(u32, u32),
    Q(u32, u32, u32),
    C { op: ChainOp, ptr: u32, count: usize },
    L(u32, u32),
    X(u32),
}

// What a line says. A struct's members and a chain's indices are the fields behind the one that ends at index `at`: this many.
#[derive(Clone, Copy, Debug, PartialEq, Eq, Hash)]
pub enum SheetLine {
    Setting(LayoutConfig),
    Declared {
        ty: SpvType,
        count: usize,
        at: usize,
    },
    Decorated(MemberDecoration),
    Asked {
        ask: Ask,
        at: usize,
    },
}

// ---- all fields that are left

// How many fields there are behind the one that ends at `at`, if `next` takes them all. An iterator over fields, here and below, would be a type with laws of its own, and is longer.
fn count<T: Copy, F: Fn(usize) -> Option<Field<T>>>(
    line: &[u8],
    at: usize,
    next: F,
) -> Option<usize>
    ghost read: { List ℕ → math.Option T }
    requires callable { F.IsAlwaysCallable next }
    requires takes { (e : ℕ) (r : Option (Field T)) → F.post next e r → Took read line.now e r }
    ensures { result ≡ counted_from 0 (read_all read (behind line.now at)) }
{
    let mut end = at;
    let mut n = 0;
    while end < line.len() {
        end = next(end)?.end;
        n += 1;
    }
    Some(n)
}

// ---- the lines, behind their first field. Pairs of one shape (declared and asked, int and float, vector and matrix, T and X) are two or three calls with another constructor
// at the end: one function for both would take the constructor as a closure, with a ghost map from it to the grammar's form, and is longer.

// What is left of a line, behind the field that ends at e, below `above` types.
#[derive(Clone, Copy)]
struct Rest<'a> {
    line: &'a [u8],
    e: usize,
    above: u32,
}

// A type that has no further field.
#[inline(always)]
fn declared(line: &[u8], e: usize, ty: SpvType) -> Option<SheetLine>
    ensures { (above : ℕ) → Says above line.now result (end (declare ty) (behind line.now e)) }
{
    (line.len() <= e).then_some(SheetLine::Declared {
        ty,
        count: 0,
        at: e,
    })
}

// A question that has no further field.
#[inline(always)]
fn asked(line: &[u8], e: usize, ask: Ask) -> Option<SheetLine>
    requires { count_of ask ≡ 0 }
    ensures { (above : ℕ) → Says above line.now result (end (Asked (question_of ask [])) (behind line.now e)) }
{
    (line.len() <= e).then_some(SheetLine::Asked { ask, at: e })
}

// The setting, on line 1. All lines are put into read_line, and read_line into what calls it: where one of them is called, what a line says is stored by its
// parts and read back as a whole, and lines that declare types take up to a half more time (measured).
#[inline(always)]
fn setting_line(r: &Rest<'_>) -> Option<SheetLine>
    ensures { SaysAs r.now.above "G" r.now.line.now r.now.e result }
{
    let ignore = bool::next(r.line, r.e)?;
    let min = u32::next(r.line, ignore.end)?;
    let bsize = u32::next(r.line, min.end)?;
    let balign = u32::next(r.line, bsize.end)?;
    let psize = u32::next(r.line, balign.end)?;
    let palign = u32::next(r.line, psize.end)?;
    (r.line.len() <= palign.end).then_some(SheetLine::Setting(LayoutConfig {
        ignore_legacy_align: ignore.value,
        min_aggregate_legacy_align: min.value,
        abstract_bool_size: bsize.value,
        abstract_bool_align: balign.value,
        logical_ptr_size: psize.value,
        logical_ptr_align: palign.value,
    }))
}

// An integer type.
#[inline(always)]
fn int_line(r: &Rest<'_>) -> Option<SheetLine>
    ensures { SaysAs r.now.above "I" r.now.line.now r.now.e result }
{
    let width = u32::next(r.line, r.e)?;
    declared(r.line, width.end, SpvType::Int { width: width.value })
}

// A float type.
#[inline(always)]
fn float_line(r: &Rest<'_>) -> Option<SheetLine>
    ensures { SaysAs r.now.above "F" r.now.line.now r.now.e result }
{
    let width = u32::next(r.line, r.e)?;
    declared(r.line, width.end, SpvType::Float { width: width.value })
}

// A vector type.
#[inline(always)]
fn vector_line(r: &Rest<'_>) -> Option<SheetLine>
    ensures { SaysAs r.now.above "V" r.now.line.now r.now.e result }
{
    let elem = fields::type_at(r.line, r.e, r.above)?;
    let len = u32::next(r.line, elem.end)?;
    declared(
        r.line,
        len.end,
        SpvType::Vector {
            elem: elem.value,
            len: len.value,
        },
    )
}

// A matrix type.
#[inline(always)]
fn matrix_line(r: &Rest<'_>) -> Option<SheetLine>
    ensures { SaysAs r.now.above "M" r.now.line.now r.now.e result }
{
    let column = fields::type_at(r.line, r.e, r.above)?;
    let len = u32::next(r.line, column.end)?;
    declared(
        r.line,
        len.end,
        SpvType::Matrix {
            column: column.value,
            len: len.value,
        },
    )
}

// An array type.
#[inline(always)]
fn array_line(r: &Rest<'_>) -> Option<SheetLine>
    ensures { SaysAs r.now.above "A" r.now.line.now r.now.e result }
{
    let elem = fields::type_at(r.line, r.e, r.above)?;
    let len = Length::next(r.line, elem.end)?;
    let stride = Stride::next(r.line, len.end)?;
    declared(
        r.line,
        stride.end,
        SpvType::Array {
            elem: elem.value,
            len: len.value,
            stride: stride.value,
        },
    )
}

// An array type without length.
#[inline(always)]
fn runtime_line(r: &Rest<'_>) -> Option<SheetLine>
    ensures { SaysAs r.now.above "R" r.now.line.now r.now.e result }
{
    let elem = fields::type_at(r.line, r.e, r.above)?;
    let stride = Stride::next(r.line, elem.end)?;
    declared(
        r.line,
        stride.end,
        SpvType::RuntimeArray {
            elem: elem.value,
            stride: stride.value,
        },
    )
}

// A pointer type.
#[inline(always)]
fn pointer_line(r: &Rest<'_>) -> Option<SheetLine>
    ensures { SaysAs r.now.above "P" r.now.line.now r.now.e result }
{
    let class = u32::next(r.line, r.e)?;
    let pointee = fields::type_at(r.line, class.end, r.above)?;
    declared(
        r.line,
        pointee.end,
        SpvType::Pointer {
            class: class.value,
            pointee: pointee.value,
        },
    )
}

// The layout of a type.
#[inline(always)]
fn t_line(r: &Rest<'_>) -> Option<SheetLine>
    ensures { SaysAs r.now.above "T" r.now.line.now r.now.e result }
{
    let t = fields::type_at(r.line, r.e, r.above)?;
    asked(r.line, t.end, Ask::T(t.value))
}

// Whether two types are laid out the same.
#[inline(always)]
fn e_line(r: &Rest<'_>) -> Option<SheetLine>
    ensures { SaysAs r.now.above "E" r.now.line.now r.now.e result }
{
    let a = fields::type_at(r.line, r.e, r.above)?;
    let b = fields::type_at(r.line, a.end, r.above)?;
    asked(r.line, b.end, Ask::E(a.value, b.value))
}

// The components that hold a range.
#[inline(always)]
fn q_line(r: &Rest<'_>) -> Option<SheetLine>
    ensures { SaysAs r.now.above "Q" r.now.line.now r.now.e result }
{
    let t = fields::type_at(r.line, r.e, r.above)?;
    let start = u32::next(r.line, t.end)?;
    let end = u32::next(r.line, start.end)?;
    asked(r.line, end.end, Ask::Q(t.value, start.value, end.value))
}

// The length of a runtime array.
#[inline(always)]
fn l_line(r: &Rest<'_>) -> Option<SheetLine>
    ensures { SaysAs r.now.above "L" r.now.line.now r.now.e result }
{
    let ptr = fields::type_at(r.line, r.e, r.above)?;
    let member = u32::next(r.line, ptr.end)?;
    asked(r.line, member.end, Ask::L(ptr.value, member.value))
}

// A local variable.
#[inline(always)]
fn x_line(r: &Rest<'_>) -> Option<SheetLine>
    ensures { SaysAs r.now.above "X" r.now.line.now r.now.e result }
{
    let ptr = fields::type_at(r.line, r.e, r.above)?;
    asked(r.line, ptr.end, Ask::X(ptr.value))
}

// A struct type, of as many members as it says.
#[inline(always)]
fn struct_line(r: &Rest<'_>) -> Option<SheetLine>
    ensures { SaysAs r.now.above "S" r.now.line.now r.now.e result }
{
    let block = bool::next(r.line, r.e)?;
    let n = u32::next(r.line, block.end)?;
    let count = count(r.line, n.end, |e| fields::type_at(r.line, e, r.above))?;
    // widens: there is no From of u32 to usize
    (n.value as usize == count).then_some(SheetLine::Declared {
        ty: SpvType::Struct { block: block.value },
        count,
        at: n.end,
    })
}

// A decoration of the last struct.
#[inline(always)]
fn decoration_line(r: &Rest<'_>) -> Option<SheetLine>
    ensures { SaysAs r.now.above "D" r.now.line.now r.now.e result }
{
    let member = u32::next(r.line, r.e)?;
    let decoration = fields::decoration_at(r.line, member.end)?;
    (r.line.len() <= decoration.end).then_some(SheetLine::Decorated(MemberDecoration {
        member: member.value,
        decoration: decoration.value,
    }))
}

// The op of a chain. Called, and not inlined as all else here: it is told by texts, constants that are read, and what reads numbers holds none
// (tools/tableless).
#[inline(never)]
fn op_at(line: &[u8], e: usize) -> Option<Field<ChainOp>>
    ensures { Took read_op line.now e result }
{
    ChainOp::next(line, e)
}

// A chain with its indices.
#[inline(always)]
fn c_line(r: &Rest<'_>) -> Option<SheetLine>
    ensures { SaysAs r.now.above "C" r.now.line.now r.now.e result }
{
    let op = op_at(r.line, r.e)?;
    let ptr = fields::type_at(r.line, op.end, r.above)?;
    let count = count(r.line, ptr.end, |e| Index::next(r.line, e))?;
    Some(SheetLine::Asked {
        ask: Ask::C {
            op: op.value,
            ptr: ptr.value,
            count,
        },
        at: ptr.end,
    })
}

// What a line says below `above` types, by its first field.
#[inline(always)]
#[tactic(auto, using(crate::proofs::First::by_letter), unfolding(sheet::specs::Grammar::grammar))]
pub fn read_line(line: &[u8], above: u32) -> Option<SheetLine>
    ensures { Says above line.now result (read_line above line.now) }
{
    let e = fields::piece_end(line, 0, b',');
    if e != 1 {
        return None;
    }
    let r = Rest { line, e, above };
    // an arm a letter, as in the grammar
    match line[0] {
        b'G' => setting_line(&r),
        b'B' => declared(line, e, SpvType::Bool),
        b'I' => int_line(&r),
        b'F' => float_line(&r),
        b'V' => vector_line(&r),
        b'M' => matrix_line(&r),
        b'A' => array_line(&r),
        b'R' => runtime_line(&r),
        b'S' => struct_line(&r),
        b'P' => pointer_line(&r),
        b'O' => declared(line, e, SpvType::Opaque),
        b'U' => declared(line, e, SpvType::Unsupported),
        b'D' => decoration_line(&r),
        b'T' => t_line(&r),
        b'E' => e_line(&r),
        b'Q' => q_line(&r),
        b'C' => c_line(&r),
        b'L' => l_line(&r),
        b'X' => x_line(&r),
        _ => None,
    }
}

// ---- members and indices, written

// The word w at first + n; past the list's end nothing is written.
pub fn put_at(list: &mut [u32], first: usize, n: usize, w: u32)
    ensures { list.new ≡ set list.old (first + n) w }
{
    spirv::put_word(list, first.saturating_add(n), w);
}

// The members that a line names behind index `at`, from `first` on. A loop, for the reason above `count`.
pub fn put_members(line: &[u8], at: usize, above: u32, list: &mut [u32], first: usize)
    ensures { (ms : List ℕ) → read_all (read_type above) (behind line.now at) ≡ math.some ms → list.new ≡ sets list.old first ms }
{
    let mut end = at;
    let mut n = 0;
    while let Some(f) = fields::type_at(line, end, above) {
        put_at(list, first, n, f.value);
        end = f.end;
        n += 1;
    }
}

// The indices of a chain behind index `at`, two words each. One function for members too would take a closure that reads and one for the words, and is longer. A loop, for the reason above `count`.
pub fn put_indices(line: &[u8], at: usize, list: &mut [u32])
    ensures { Stored (read_all read_index (behind line.now at)) list.old list.new }
{
    let mut end = at;
    let mut n = 0;
    while let Some(f) = Index::next(line, end) {
        let words = spirv::encode_index(f.value);
        spirv::put_words(list, n, &words);
        end = f.end;
        n += 2;
    }
}
