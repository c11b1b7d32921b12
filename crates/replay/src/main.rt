// Answers stored sheets by `answer_sheet`, and compares each line with the stored one. Its arguments name bundles: files of records, each a line
// `SHEETBYTES ANSWERBYTES NAME`, then the bytes of the sheet, then those of its answers. Writes each line that differs, then how many agree.
// Its functions are only proved safe and ending, but for `part` and `behind`.
#![tactic(auto)]

ghost use Rattle.std.specs.Prelude.{◌≡◌, ◌<◌, ◌≤◌, length, take, drop};

use intake::Argument;
use std::io;
use std::io::Write;
use std::ops::AddAssign;

// The longest answers that are compared.
const MOST_ANSWERED: usize = 65_536;

// The longest bundle that is read; of a longer one so many bytes are.
const MOST_READ: usize = 262_144;

// How many sheets and answers agree, and how many lines differ.
#[derive(Clone, Copy, Default)]
struct Count {
    sheets: u64,
    answers: u64,
    differing: u64,
}

// Wrapping, so that no bound is to be shown: there are never so many lines.
impl AddAssign for Count {
    fn add_assign(&mut self, other: Count) {
        self.sheets = self.sheets.wrapping_add(other.sheets);
        self.answers = self.answers.wrapping_add(other.answers);
        self.differing = self.differing.wrapping_add(other.differing);
    }
}

// A record of a bundle: where its name, its sheet, its answers and the next record begin.
#[derive(Clone, Copy)]
struct Record {
    name: usize,
    sheet: usize,
    answers: usize,
    next: usize,
}

// ---- bytes

// The bytes from a place on, at most so many: those that are there. As `shapes::rows::span`, whose list and numbers are words: one for
// both would be cast at each call there.
fn part(s: &[u8], at: usize, most: usize) -> &[u8]
    ensures { result.now ≡ take most (drop at s.now) }
{
    let rest = s.get(at..).unwrap_or_default();
    rest.get(..most).unwrap_or(rest)
}

// The bytes from one place up to another.
fn between(s: &[u8], from: usize, to: usize) -> &[u8] {
    part(s, from, to.saturating_sub(from))
}

// The place behind the next byte c, from a place on; where there is none the end, behind which nothing stands: a record that is cut off is misread or differs.
fn behind(s: &[u8], at: usize, c: u8) -> usize
    ensures not_before { at ≤ result }
    ensures later { at < length s.now → at < result }
{
    let rest = s.get(at..).unwrap_or_default();
    match rest.iter().position(|b| *b == c) {
        Some(i) => at + i + 1,
        None => s.len().max(at),
    }
}

// ---- a sheet

fn say(out: &mut impl Write, what: &[u8], line: &[u8]) -> io::Result<()> {
    out.write_all(what)?;
    out.write_all(line)?;
    if line.is_empty() {
        out.write_all(b"no line\n")?;
    }
    Ok(())
}

// Says where two lines differ, behind the sheet's name, which has its LF.
fn compare_line(
    out: &mut impl Write,
    name: &[u8],
    stored: &[u8],
    given: &[u8],
) -> io::Result<Count> {
    if stored == given {
        return Ok(Count {
            answers: 1,
            ..Count::default()
        });
    }
    out.write_all(name)?;
    say(out, b" stored   ", stored)?;
    say(out, b" answered ", given)?;
    Ok(Count {
        differing: 1,
        ..Count::default()
    })
}

// Line by line; where one has fewer, its lines are empty from there on.
fn compare_lines(
    out: &mut impl Write,
    name: &[u8],
    stored: &[u8],
    given: &[u8],
) -> io::Result<Count> {
    let mut count = Count::default();
    let mut rest = given.split_inclusive(|b| *b == b'\n');
    for line in stored.split_inclusive(|b| *b == b'\n') {
        count += compare_line(out, name, line, rest.next().unwrap_or_default())?;
    }
    for line in rest {
        count += compare_line(out, name, &[], line)?;
    }
    Ok(count)
}

fn compare(out: &mut impl Write, name: &[u8], stored: &[u8], given: &[u8]) -> io::Result<Count> {
    if stored == given {
        return Ok(Count {
            sheets: 1,
            // no `From`: a count fits
            answers: stored.split_inclusive(|b| *b == b'\n').count() as u64,
            differing: 0,
        });
    }
    compare_lines(out, name, stored, given)
}

fn replay_sheet(
    out: &mut impl Write,
    name: &[u8],
    sheet: &[u8],
    stored: &[u8],
) -> io::Result<Count> {
    let mut answered = [0u8; MOST_ANSWERED];
    match whole::answer_sheet(sheet, &mut answered) {
        Ok(n) => compare(out, name, stored, part(&answered, 0, n)),
        Err(_) => compare(out, name, stored, b"more than 65536 bytes\n"),
    }
}

// ---- a bundle

fn read_record(bundle: &[u8], at: usize) -> Option<Record> {
    let second = behind(bundle, at, b' ');
    let name = behind(bundle, second, b' ');
    let sheet = behind(bundle, name, b'\n');
    let size = decimal::read_number(between(bundle, at, second.checked_sub(1)?))?;
    let answers_size = decimal::read_number(between(bundle, second, name.checked_sub(1)?))?;
    // no `From`, here and below: a word fits
    let answers = sheet.wrapping_add(size as usize);
    Some(Record {
        name,
        sheet,
        answers,
        next: answers.wrapping_add(answers_size as usize),
    })
}

fn replay(out: &mut impl Write, bundle: &[u8]) -> io::Result<Count> {
    let mut total = Count::default();
    let mut at = 0;
    // by place: only a record tells where the next one begins
    while at < bundle.len() {
        let Some(record) = read_record(bundle, at) else {
            out.write_all(b"a record is misread\n")?;
            return Ok(total);
        };
        let name = between(bundle, record.name, record.sheet);
        let sheet = between(bundle, record.sheet, record.answers);
        let stored = between(bundle, record.answers, record.next);
        total += replay_sheet(out, name, sheet, stored)?;
        // never, but a loop that goes by place must be seen to end
        if record.next <= at {
            return Ok(total);
        }
        at = record.next;
    }
    Ok(total)
}

fn say_total(out: &mut impl Write, total: Count) -> io::Result<()> {
    let Count {
        sheets,
        answers,
        differing,
    } = total;
    writeln!(
        out,
        "{sheets} sheets and {answers} answers agree, {differing} lines differ"
    )
}

// With as many arguments as are looked at, or more, there is no total. A bundle that can't be opened counts for nothing.
fn main(rt: HostRuntime) -> io::Result<()> {
    let mut out = io::writer(&rt);
    let mut total = Count::default();
    let mut name = [0u8; intake::LONGEST_NAME];
    let mut bundle = [0u8; MOST_READ];
    // by number, as the runtime gives an argument; and the loop is seen to end
    for i in 1..=intake::MOST_ARGUMENTS {
        match intake::read_argument(&rt, i, &mut name, &mut bundle)? {
            Argument::File { size, .. } => total += replay(&mut out, &bundle[..size])?,
            Argument::Unread => {}
            Argument::Missing => return say_total(&mut out, total),
        }
    }
    Ok(())
}
