// Reads a sheet from standard input and writes its answers to standard output: a line per question, or one refusal line for a bad sheet.
// `prepare` reads the whole sheet before anything is written, and `fill` gives its lines a buffer at a time. `run` says that it writes `lay_output` of
// what it reads, at every reader and writer whose bytes are known. No contract can say what the system reads or writes.
#![tactic(auto)]

ghost use Rattle.std.specs.Prelude.{IfSome, OnOk};
ghost use Rattle.std.specs.Io.KnownBytes.{Appends};
ghost use Rattle.arith.specs.Refusals.{refused};
ghost use Rattle.answers.specs.Output.{text_of, lay_output};
ghost use Rattle.answering.specs.OfTables.{source};
ghost use Rattle.listing.specs.Listing.{lines_from};

use arith::refusal::Refusal;
use prepared::Ready;
use shapes::tables::{Layouts, Tables};
use std::io;
use std::io::{ErrorKind, Read, Write};

// One byte more than the longest sheet has, so that a longer one is seen to be too long.
const MOST_READ: usize = 65_537;

const BUFFER: usize = 65_536;

// A refusal line, "e,4294967295" and LF at the longest.
fn write_refusal<W: Write>(out: &mut W, e: Refusal) -> io::Result<()>
    ensures { OnOk result (Appends (W.contents out.old) (W.contents out.new) (text_of (refused e.number))) }
{
    let mut line = [0u8; 13];
    let Ok(n) = fitting::put_refusal_line(&mut line, e) else {
        unreachable!()
    };
    out.write_all(&line[..n])
}

// The lines of all questions, a buffer of whole lines at a time.
// No line has more than 11,324 bytes. T: "t", ",ab", 5 numbers and up to 1,024 offsets, each behind a comma and of up to 10 digits, and LF, that is
// 1 + 3 + 1,029 * 11 + 1. Q: fewer numbers. C: "c", up to 256 steps and LF, where a step is at the longest "D", two numbers and an unknown
// index, each behind a comma: 1 + 256 * (2 + 11 + 11 + 12) + 1. So a buffer of as many bytes always takes a line; the theorem `longest_line` of
// the crate `longest` has 16,384.
fn write_answers<W: Write>(
    out: &mut W,
    sheet: &[u8],
    tables: &Tables<'_>,
    buffer: &mut [u8],
) -> io::Result<()>
    ensures { OnOk result (Appends (W.contents out.old) (W.contents out.new) (lines_from (source tables.now) sheet.now 0)) }
{
    let mut from = 0;
    // the last buffer is written, too, before it is known to be the last
    loop {
        let filled = listing::fill(sheet, from, tables, buffer);
        out.write_all(&buffer[..filled.bytes])?;
        if !filled.more {
            return Ok(());
        }
        // never, as the comment above says: with it the loop is seen to end
        if filled.next <= from {
            return Err(io::Error::new(ErrorKind::InvalidData, "a line is longer than the buffer"));
        }
        from = filled.next;
    }
}

// The answer of a sheet. Memory is fixed: four lists hold any sheet's tables, as in `whole`.
fn answer<W: Write>(out: &mut W, sheet: &[u8]) -> io::Result<()>
    ensures { OnOk result (Appends (W.contents out.old) (W.contents out.new) (lay_output sheet.now)) }
{
    let mut types = [0u32; tally::TYPE_WORDS];
    let mut members = [0u32; tally::MAX_MEMBERS];
    let mut offsets = [0u32; tally::MAX_MEMBERS];
    let mut layouts = [0u32; tally::LAYOUT_WORDS];
    match prepared::prepare(sheet, &mut types, &mut members, &mut offsets, &mut layouts) {
        Ok(Ready { cfg, n }) => {
            let layouts = Layouts {
                rows: &layouts,
                count: n,
                offsets: &offsets,
                members: &members,
            };
            let tables = Tables {
                cfg,
                types: &types,
                layouts,
            };
            let mut buffer = [0u8; BUFFER];
            write_answers(out, sheet, &tables, &mut buffer)
        }
        Err(e) => write_refusal(out, e),
    }
}

fn run<R: Read, W: Write>(input: &mut R, out: &mut W) -> io::Result<()>
    ensures { OnOk result (IfSome (R.remaining input.old) (λ bytes.
        Appends (W.contents out.old) (W.contents out.new) (lay_output bytes))) }
{
    let mut sheet = [0u8; MOST_READ];
    let n = intake::read_all(input, &mut sheet)?;
    answer(out, &sheet[..n])
}

fn main(rt: HostRuntime) -> io::Result<()> {
    run(&mut rt.reader(), &mut io::writer(&rt))
}
