// The program: a tool reads standard input, a line at a time, and prints what it says of each. The first word names the tool; without one it is document 01's program. Words in pairs are tools and data files, which are played one after the other.
#![tactic(auto)]

use std::env::{Env, FillError};
use std::io::{ErrorKind, Read, Write};
use std::rt::Files;
use std::{fs, io, str};
use stream::{Outlets, run_told};
use tools::{Tool, tool_named};

// Runs a tool over an input, with all the memory that it ever uses. What fails was told.
fn play<I: Read, O: Write, E: Write>(input: &mut I, outlets: &mut Outlets<O, E>, tool: Tool) {
    let mut piece = [0u8; 65536];
    let mut out = [0u8; 65536];
    run_told(input, outlets, tool, &mut piece, &mut out);
}

// Runs the tool of a name over an input, or tells that no tool has the name.
fn play_input<I: Read, O: Write, E: Write>(
    input: &mut I,
    outlets: &mut Outlets<O, E>,
    name: &[u8],
) {
    if let Some(tool) = tool_named(name) {
        play(input, outlets, tool);
        return;
    }
    for part in [b"there is no tool ", name, b"\n"] {
        let _ = outlets.errors.write_all(part);
    }
}

// Opens a file for reading. Files are named by text, so a name that is none names no file.
fn open_read<R: Files>(rt: &R, file: &[u8]) -> io::Result<R::File> {
    match str::from_utf8(file) {
        Ok(path) => fs::open(rt, path),
        Err(_) => Err(io::Error::from(ErrorKind::InvalidFilename)),
    }
}

// Runs the tool of a name over a data file, and prints both names before its answers.
fn play_file<R: Files, O: Write, E: Write>(
    rt: &R,
    outlets: &mut Outlets<O, E>,
    name: &[u8],
    file: &[u8],
) {
    for part in [b"== ", name, b" ", file, b"\n"] {
        let _ = outlets.output.write_all(part);
    }
    match open_read(rt, file) {
        Ok(mut input) => play_input(&mut input, outlets, name),
        Err(error) => outlets.fail(file, error),
    }
}

// How many words the program was started with, its own name among them.
fn arg_count<R: Env>(rt: &R) -> usize {
    let mut letter = [0u8; 1];
    for place in 0..usize::MAX {
        if let Err(FillError::NotPresent) = rt.arg(place, &mut letter) {
            return place;
        }
    }
    usize::MAX
}

// A word that the program was started with, at the start of a buffer; None where it is missing or longer than the buffer.
fn arg<'a, R: Env>(rt: &R, place: usize, buffer: &'a mut [u8]) -> Option<&'a [u8]> {
    let n = rt.arg(place, buffer).ok()?;
    Some(&buffer[..n])
}

// Plays a pair of words, by their places. A word that cannot be had is an empty one.
fn play_pair<R: Env + Files, O: Write, E: Write>(
    rt: &R,
    outlets: &mut Outlets<O, E>,
    first: usize,
    second: usize,
) {
    let mut name = [0u8; 4096];
    let mut file = [0u8; 4096];
    let name = arg(rt, first, &mut name).unwrap_or(b"");
    let file = arg(rt, second, &mut file).unwrap_or(b"");
    play_file(rt, outlets, name, file);
}

// Plays the tool that the only word names.
fn play_word<R: Env, I: Read, O: Write, E: Write>(
    rt: &R,
    input: &mut I,
    outlets: &mut Outlets<O, E>,
) {
    let mut name = [0u8; 4096];
    let name = arg(rt, 1, &mut name).unwrap_or(b"");
    play_input(input, outlets, name);
}

fn main(rt: HostRuntime) {
    let input = &mut rt.stdin();
    let outlets = &mut Outlets {
        output: rt.stdout(),
        errors: rt.stderr(),
    };
    match arg_count(&rt) {
        0 | 1 => play(input, outlets, Tool::Lines),
        2 => play_word(&rt, input, outlets),
        count => {
            for k in 0..(count - 1) / 2 {
                play_pair(&rt, outlets, 2 * k + 1, 2 * k + 2);
            }
        }
    }
}
