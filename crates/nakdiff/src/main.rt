// Prints which bytes only one of the NAKs in two files asks for, or why they are refused. Of each file it reads at most the first 8,192
// bytes.
// What is printed is tested and not proved.
#![tactic(auto)]

ghost use Rattle.std.specs.Prelude.{◌≤◌, length};

use ranges::differ;
use ranges::differ::Differences;
use std::env::{Env, FillError};
use std::fs::File;
use std::io::Read;
use std::rt::Files;

// Three numbers for each request that two files can have: of 8,192 bytes a header takes 7 at least, the code 1 and the scope 8, so that
// 1,022 pairs of 8 bytes are left. With so much room a comparison is never refused for want of it.
const LENT: usize = 6132;

// Whether the program was started with so many arguments, its own name among them.
fn has_argument(rt: &impl Env, argument: usize) -> bool {
    !matches!(rt.arg(argument, &mut []), Err(FillError::NotPresent))
}

// What failed, and the system's words for it, without the number that an error has behind them.
fn say<R: Alloc + Eprint>(rt: &R, what: &str, error: &std::io::Error) -> std::io::Result<()> {
    let text = error.to_string(rt.alloc())?;
    match text.as_str().split_once(" (os error") {
        Some((words, _)) => rt.eprintln(format_args!("{what}: {words}")),
        None => rt.eprintln(format_args!("{what}: {text}")),
    }
}

// The file that an argument names, opened for reading; where it cannot be, that is said.
fn open_named<R: Env + Files + Alloc + Eprint>(
    rt: &R,
    argument: usize,
) -> std::io::Result<Option<R::File>> {
    let mut path = [0u8; 4096];
    let Ok(length) = rt.arg(argument, &mut path) else {
        rt.eprintln("the name of a file: File name too long")?;
        return Ok(None);
    };
    let Ok(name) = str::from_utf8(&path[..length]) else {
        rt.eprintln("the name of a file: not UTF-8")?;
        return Ok(None);
    };
    match File::open(rt, name) {
        Ok(file) => Ok(Some(file)),
        Err(error) => {
            say(rt, name, &error)?;
            Ok(None)
        }
    }
}

// Reads until the buffer is full or the file at its end, where one that cannot be read ends: what there is.
// Kept: the loop: `Read` has no method that fills a buffer as far as it can.
fn read_full<'a>(file: &mut impl Read, bytes: &'a mut [u8]) -> &'a [u8]
    ensures { length result.now ≤ length bytes.old }
{
    let mut there = 0;
    while there < bytes.len() {
        match file.read(&mut bytes[there..]) {
            Ok(0) | Err(_) => break,
            Ok(n) => there += n,
        }
    }
    &bytes[..there]
}

// Three numbers stand in the lent ones for each range: its start, its end, and which file alone asks for it.
fn print_found(rt: &impl Print, found: Differences, lent: &[u64]) -> std::io::Result<()> {
    println!(rt;
        "metadata {} {}",
        u8::from(found.first),
        u8::from(found.second)
    )?;
    let (ranges, _) = lent.as_chunks::<3>();
    for [start, end, side] in ranges.iter().take(found.ranges) {
        println!(rt; "only {side} {start} {end}")?;
    }
    println!(rt; "end {}", found.ranges)
}

fn compare(rt: &impl Print, first: &mut impl Read, second: &mut impl Read) {
    let mut bytes1 = [0u8; 8192];
    let mut bytes2 = [0u8; 8192];
    let pdu1 = read_full(first, &mut bytes1);
    let pdu2 = read_full(second, &mut bytes2);
    let mut lent = [0u64; LENT];
    let result = differ::differ(pdu1, pdu2, &mut lent);
    match result {
        Err(refusal) => {
            listing::print_refusal(refusal);
        }
        Ok(found) => {
            // Where standard output takes nothing there is nobody to tell.
            let _ = print_found(rt, found, &lent);
        }
    }
}

fn main(rt: HostRuntime) -> std::io::Result<()> {
    if !has_argument(&rt, 2) || has_argument(&rt, 3) {
        return rt.eprintln("nakdiff FILE FILE");
    }
    let Some(mut first) = open_named(&rt, 1)? else {
        return Ok(());
    };
    let Some(mut second) = open_named(&rt, 2)? else {
        return Ok(());
    };
    compare(&rt, &mut first, &mut second);
    Ok(())
}
