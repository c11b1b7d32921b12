// The fields of a line: where one ends, and what it says, for each kind of field. A field follows the one that ends at index e.
#![tactic(auto)]

ghost use Rattle.std.specs.Prelude.{◌≡◌, ◌==◌, ◌≤◌, ℕ, List, length, position};
ghost use Rattle.std.proofs.Math.Option as math;
ghost use Rattle.arith.specs.InCode.{as_option};
ghost use Rattle.decimal.specs.Text.{same};
ghost use Rattle.decimal.specs.Decimal.{read_number};
ghost use Rattle.sheet.specs.Fields.{read_flag, read_type, read_length, read_stride, read_op, read_index, read_decoration};
ghost use Rattle.fields.specs.Lines.{LineAt};
ghost use Rattle.fields.specs.Pieces.{Piece};
ghost use Rattle.fields.specs.Took.{Stands, Took, TookBoth};

use spirv::{ChainOp, Decoration, Index, Length, Stride};

// What a field says, and the index at which it ends.
#[derive(Clone, Copy)]
pub struct Field<T> {
    pub value: T,
    pub end: usize,
}

// What a field may say: a flag, a number, ..
pub trait ReadField: Sized {
    ghost read: { List ℕ → math.Option Self };

    // What the field f says, if it is of this kind.
    fn read(f: &[u8]) -> Option<Self>
        ensures { result ≡ as_option (read f.now) };

    // What the next field of a line says.
    #[tactic(auto, using(crate::proofs::Took::next_field))]
    fn next(line: &[u8], e: usize) -> Option<Field<Self>>
        ensures { Took read line.now e result }
    {
        let f = piece(line, e)?;
        let value = Self::read(f.value)?;
        Some(Field { value, end: f.end })
    }
}

// ---- what one field says

// The field f is this text. A function, since `==` takes a slice and no literal of bytes: each of the eleven tests below would end in `.as_slice()`.
fn is(f: &[u8], text: &[u8]) -> bool
    ensures { result ≡ same f.now text.now }
{
    f == text
}

// 0 or 1.
impl ReadField for bool {
    ghost read = { read_flag };

    #[tactic(auto, unfolding(sheet::specs::Fields::read_flag))]
    fn read(f: &[u8]) -> Option<bool> {
        if is(f, b"0") {
            return Some(false);
        }
        is(f, b"1").then_some(true)
    }
}

impl ReadField for u32 {
    ghost read = { read_number };

    fn read(f: &[u8]) -> Option<u32> {
        decimal::read_number(f)
    }
}

// A number or `s`. This and the next are of one shape: one function for both would take the letter and two constructors, and its law a map for each.
impl ReadField for Length {
    ghost read = { read_length };

    #[tactic(auto, using(crate::proofs::Numbers::number_cases), unfolding(sheet::specs::Fields::read_length))]
    fn read(f: &[u8]) -> Option<Length> {
        if is(f, b"s") {
            return Some(Length::Specialization);
        }
        decimal::read_number(f).map(Length::Fixed)
    }
}

// A number or `-`.
impl ReadField for Stride {
    ghost read = { read_stride };

    #[tactic(auto, using(crate::proofs::Numbers::number_cases), unfolding(sheet::specs::Fields::read_stride))]
    fn read(f: &[u8]) -> Option<Stride> {
        if is(f, b"-") {
            return Some(Stride::Undecorated);
        }
        decimal::read_number(f).map(Stride::Decorated)
    }
}

// 65, 66, 67 or 70, as text; `tabled::op_of` reads the numbers that C hands over. By number here, its law would have to show that each has one spelling.
impl ReadField for ChainOp {
    ghost read = { read_op };

    #[tactic(auto, unfolding(sheet::specs::Fields::read_op))]
    fn read(f: &[u8]) -> Option<ChainOp> {
        if is(f, b"65") {
            return Some(ChainOp::AccessChain);
        }
        if is(f, b"66") {
            return Some(ChainOp::InBoundsAccessChain);
        }
        if is(f, b"67") {
            return Some(ChainOp::PtrAccessChain);
        }
        is(f, b"70").then_some(ChainOp::InBoundsPtrAccessChain)
    }
}

// A known word, or `v` and an unknown's number.
impl ReadField for Index {
    ghost read = { read_index };

    #[tactic(auto, using(crate::proofs::Numbers::indices))]
    fn read(f: &[u8]) -> Option<Index> {
        // read at one place: with a call in each arm below, chains are read a sixth slower (measured)
        let unknown = f.strip_prefix(b"v");
        let n = decimal::read_number(unknown.unwrap_or(f))?;
        match unknown {
            Some(_) => Some(Index::Unknown(n)),
            None => Some(Index::Known(n)),
        }
    }
}

// A decoration's number and its value.
#[tactic(auto, using(crate::proofs::Numbers::number_cases), unfolding(sheet::specs::Fields::read_decoration))]
fn decoration(number: &[u8], value: &[u8]) -> Option<Decoration>
    ensures { result ≡ as_option (read_decoration number.now value.now) }
{
    if is(number, b"4") {
        return is(value, b"-").then_some(Decoration::RowMajor);
    }
    if is(number, b"35") {
        return decimal::read_number(value).map(Decoration::Offset);
    }
    None
}

// ---- the next field of a line

// Where the byte c first stands. A function, since two need it: what its closure does is proved once.
fn place(s: &[u8], c: u8) -> Option<usize>
    ensures { result ≡ position (λ b. b == c) s.now }
{
    s.iter().position(|b| *b == c)
}

// Where the piece that starts at `at` ends: at the next byte c, or at the end.
pub fn piece_end(s: &[u8], at: usize, c: u8) -> usize
    requires { at ≤ length s.now }
    ensures { Piece c s.now at result }
{
    place(&s[at..], c).map_or(s.len(), |n| at + n)
}

// The line that starts at `at`, without its LF; none where no LF follows.
#[tactic(auto, using(crate::proofs::Lines::past_end, crate::proofs::Lines::no_line))]
pub fn line_at(s: &[u8], at: usize) -> Option<&[u8]>
    ensures { LineAt s.now at result }
{
    let rest = s.get(at..)?;
    let n = place(rest, b'\n')?;
    Some(&rest[..n])
}

// The next field as it stands.
fn piece(line: &[u8], e: usize) -> Option<Field<&[u8]>>
    ensures { Stands line.now e result }
{
    if line.len() <= e {
        return None;
    }
    let end = piece_end(line, e + 1, b',');
    Some(Field {
        value: &line[e + 1..end],
        end,
    })
}

// The number of a type above.
#[tactic(auto, using(crate::proofs::Took::next_type))]
pub fn type_at(line: &[u8], e: usize, above: u32) -> Option<Field<u32>>
    ensures { Took (read_type above) line.now e result }
{
    let f = u32::next(line, e)?;
    (f.value < above).then_some(f)
}

// The next two fields, a decoration's number and its value.
#[tactic(auto, using(crate::proofs::Took::next_two))]
pub fn decoration_at(line: &[u8], e: usize) -> Option<Field<Decoration>>
    ensures { TookBoth line.now e result }
{
    let number = piece(line, e)?;
    let f = piece(line, number.end)?;
    let value = decoration(number.value, f.value)?;
    Some(Field { value, end: f.end })
}
