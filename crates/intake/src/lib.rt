// What programs are given: an input, read to its end into a lent list, and the file that an argument names.
#![tactic(auto)]

ghost use Rattle.std.specs.Prelude.{◌≡◌, ◌≤◌, length, take, IfOk, IfSome};
ghost use Rattle.intake.specs.Arguments.{Within};

use std::env::{Env, FillError};
use std::io::Read;
use std::rt::Files;
use std::{fs, io};

// The input to its end, or as much as the list holds, in front of the list; and how many bytes that is.
pub fn read_all<R: Read>(input: &mut R, list: &mut [u8]) -> io::Result<usize>
    ensures within { IfOk result (λ n. n ≤ length list.new) }
    ensures front { IfOk result (λ n. IfSome (R.remaining input.old) (λ bytes. take n list.new ≡ take (length list.old) bytes)) }
{
    let mut done = 0;
    // by place: a read gives as many bytes as it likes
    while done < list.len() {
        let n = input.read(&mut list[done..])?;
        if n == 0 {
            return Ok(done);
        }
        done += n;
    }
    Ok(done)
}

// What room a name gets, and how many arguments are looked at.
pub const LONGEST_NAME: usize = 4_096;

pub const MOST_ARGUMENTS: usize = 4_096;

// What an argument stands for.
#[derive(Clone, Copy)]
pub enum Argument<'n> {
    // A file, its name, and how many of its bytes were read into the list.
    File { name: &'n str, size: usize },
    // A file that can't be opened.
    Unread,
    // There is no such argument.
    Missing,
}

// Reads the file that an argument names into the list. One that can't be opened is named on standard error.
pub fn read_argument<'n, R: Env + Files + Eprint>(
    rt: &R,
    i: usize,
    name: &'n mut [u8],
    list: &mut [u8],
) -> io::Result<Argument<'n>>
    ensures { IfOk result (Within list.new) }
{
    let n = match rt.arg(i, name) {
        Ok(n) => n,
        Err(FillError::NotPresent) => return Ok(Argument::Missing),
        // a name that is too long is tried as an empty one, which no file has
        Err(FillError::TooLong) => 0,
    };
    let Ok(name) = str::from_utf8(&name[..n]) else {
        eprintln!(rt; "argument {i} is not UTF-8")?;
        return Ok(Argument::Unread);
    };
    let mut file = match fs::open(rt, name) {
        Ok(file) => file,
        Err(e) => {
            eprintln!(rt; "{name}: {e}")?;
            return Ok(Argument::Unread);
        }
    };
    let size = read_all(&mut file, list)?;
    Ok(Argument::File { name, size })
}
