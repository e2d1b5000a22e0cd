// The sentence program: reads a sentence file from standard input and writes a line for each answer.
#![tactic(auto)]

use sentences::answers;
use std::io;
use std::io::{Read, Write};

// The most bytes that are taken of a file.
const MOST: usize = 65536;

// The most that are read: one byte more, so that a longer input is seen to be longer.
const READ: u64 = MOST as u64 + 1;

// The room to read into: with a page to spare, reading to the end asks for no more.
const ROOM: usize = MOST + 4096;

fn read_input(rt: &HostRuntime) -> io::Result<Vec<u8>> {
    let mut text = Vec::with_capacity(rt.alloc(), ROOM)?;
    rt.stdin().take(READ).read_to_end(&mut text)?;
    Ok(text)
}

fn main(rt: HostRuntime) -> io::Result<()> {
    let mut text = read_input(&rt)?;
    if text.len() > MOST {
        text.truncate(MOST);
        eprintln!(rt; "parser: the input has more than {MOST} bytes; the rest is not read")?;
    }
    let out = answers(rt.alloc(), &text)?;
    rt.stdout().write_all(&out)
}
