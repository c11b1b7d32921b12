// Reads the sheets that its arguments name. For each it writes a line: the name, and the refusal, or how many types, members and questions
// there are and a fold of each table. Tested against tools/tables; its own functions are proved safe, and promise nothing more.
#![tactic(auto)]

ghost use Rattle.std.specs.Prelude.{◌≤◌};

use arith::refusal::Refusal;
use asking::Question;
use intake::Argument;
use lines::Ask;
use spirv::ChainOp;
use std::io;
use std::io::Write;

const FOLD: u64 = 4_294_967_296;

// More than the longest sheet has, so that a longer one is seen to be too long; the limit itself is `reading`'s.
const MOST_READ: usize = 65_540;

// How many questions there are, and the fold of their words.
#[derive(Clone, Copy, Default)]
struct Asked {
    count: usize,
    fold: u64,
}

// One word more. Casts here, of u32 to usize and of usize to u64, widen, and have no From.
fn fold_word(h: u64, w: u64) -> u64 {
    (h % FOLD * 31 + w % FOLD) % FOLD
}

// The fold of a list.
fn fold(start: u64, list: &[u32]) -> u64 {
    list.iter().fold(start, |h, w| fold_word(h, u64::from(*w)))
}

// The first items of a list, or all where it has fewer. As `shapes::rows::span` from 0 on; a count is no word here.
fn first(list: &[u32], count: usize) -> &[u32] {
    list.get(..count).unwrap_or(list)
}

// The number of an op: fields and tabled read it, and here alone it is written.
fn op_number(op: ChainOp) -> u32 {
    match op {
        ChainOp::AccessChain => 65,
        ChainOp::InBoundsAccessChain => 66,
        ChainOp::PtrAccessChain => 67,
        ChainOp::InBoundsPtrAccessChain => 70,
    }
}

// The fold of a question: its letter and its numbers, and a chain's indices. An arm a question, as each has other numbers.
fn fold_ask(h: u64, a: Ask, indices: &[u32]) -> u64 {
    match a {
        Ask::T(t) => fold(h, &[u32::from(b'T'), t]),
        Ask::E(t, u) => fold(h, &[u32::from(b'E'), t, u]),
        Ask::Q(t, from, to) => fold(h, &[u32::from(b'Q'), t, from, to]),
        Ask::C { op, ptr, count } => {
            let g = fold(h, &[u32::from(b'C'), op_number(op), ptr]);
            fold(
                fold_word(g, count as u64),
                first(indices, count.saturating_mul(2)),
            )
        }
        Ask::L(t, field) => fold(h, &[u32::from(b'L'), t, field]),
        Ask::X(t) => fold(h, &[u32::from(b'X'), t]),
    }
}

// 24 where a line's indices don't fit the list.
fn fold_questions(sheet: &[u8], indices: &mut [u32]) -> Result<Asked, Refusal> {
    // by place, since a question tells where the next one begins
    let mut at = 0;
    let mut asked = Asked { count: 0, fold: 7 };
    while let Some(Question { ask, next }) = asking::next_question(sheet, at, indices)? {
        asked = Asked {
            count: asked.count + 1,
            fold: fold_ask(asked.fold, ask, indices),
        };
        at = next;
    }
    Ok(asked)
}

// How many members the type of a row has; other types than structs have none, and a row of more than a sheet can have counts for none.
fn row_members(row: &[u32]) -> usize
    ensures { result ≤ 1024 }
{
    let count = spirv::decode_row(row).map_or(0, |r| r.count as usize);
    if count <= tally::MAX_MEMBERS {
        count
    } else {
        0
    }
}

// The members of the structs among the first types.
fn member_count(types: &[u32], count: usize) -> usize {
    types
        .chunks_exact(6)
        .take(count)
        .fold(0, |n: usize, row| n.saturating_add(row_members(row)))
}

// Memory is fixed: lists of our own hold what a sheet may have, of 255 indices two words each.
fn show(out: &mut impl Write, sheet: &[u8]) -> io::Result<()> {
    let mut setting = [0u32; 6];
    let mut types = [0u32; tally::TYPE_WORDS];
    let mut members = [0u32; tally::MAX_MEMBERS];
    let mut given = [0u32; tally::MAX_MEMBERS];
    let mut indices = [0u32; 510];
    match reading::read_sheet(sheet, &mut setting, &mut types, &mut members, &mut given) {
        Err(e) => write!(out, " e,{}", e.number)?,
        Ok(ts) => {
            let n = ts as usize;
            let ms = member_count(&types, n);
            let asked = fold_questions(sheet, &mut indices).unwrap_or_default();
            let rows = fold(fold(7, &setting), first(&types, n.saturating_mul(6)));
            write!(out, " {ts} {ms} {} {rows}", asked.count)?;
            write!(
                out,
                " {} {}",
                fold(7, first(&members, ms)),
                fold(7, first(&given, ms))
            )?;
            write!(out, " {}", asked.fold)?;
        }
    }
    out.write_all(b"\n")
}

// As `replay` goes through its arguments: one loop for both would take what is done with a file as a closure that holds the writer and the total.
fn main(rt: HostRuntime) -> io::Result<()> {
    let mut out = io::writer(&rt);
    let mut name = [0u8; intake::LONGEST_NAME];
    let mut sheet = [0u8; MOST_READ];
    // by number, as the runtime gives an argument; and the loop is seen to end
    for i in 1..=intake::MOST_ARGUMENTS {
        match intake::read_argument(&rt, i, &mut name, &mut sheet)? {
            Argument::File { name, size } => {
                write!(out, "{name}")?;
                show(&mut out, &sheet[..size])?;
            }
            Argument::Unread => {}
            Argument::Missing => return Ok(()),
        }
    }
    Ok(())
}
