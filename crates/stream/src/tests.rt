// How the loop over an input ends, and what it writes until then.
use crate::{Failed, Outlets, run, run_told};
use std::io;
use std::io::{ErrorKind, Read, Write};
use tools::Tool;

// The profile and the event list of document 01's listing.
const INPUT: &[u8] = b"00000800010C00000000001F82\nD00C810301050082028182190109\n";

// The same without the last line feed, so that the answer is written where the input ends.
const UNENDED: &[u8] = b"00000800010C00000000001F82\nD00C810301050082028182190109";

// The listing's answer.
const OUTPUT: &[u8; 25] = b"810301050082028281830100\n";

// A reader and a writer that fail in one way.
#[derive(Drop)]
struct Failing {
    kind: ErrorKind,
}

impl Read for Failing {
    fn read(&mut self, _buf: &mut [u8]) -> io::Result<usize> {
        Err(io::Error::from(self.kind))
    }
}

impl Write for Failing {
    fn write(&mut self, _buf: &[u8]) -> io::Result<usize> {
        Err(io::Error::from(self.kind))
    }

    fn flush(&mut self) -> io::Result<()> {
        Ok(())
    }
}

// Runs document 01's program by pieces of 16 bytes.
fn run_lines<I: Read, O: Write + Drop>(
    input: &mut I,
    output: O,
    errors: &mut [u8],
) -> Result<(), Failed> {
    let mut piece = [0u8; 16];
    let mut out = [0u8; 8192];
    let outlets = &mut Outlets { output, errors };
    run(input, outlets, Tool::Lines, &mut piece, &mut out)
}

#[test]
fn a_whole_input(rt: HostRuntime) {
    for mut input in [INPUT, UNENDED] {
        let mut text = [0u8; 25];
        let mut errors = [0u8; 8];
        let ended = run_lines(&mut input, &mut text[..], &mut errors);
        assert!(rt; ended.is_ok());
        assert_eq!(rt; text, *OUTPUT);
        assert_eq!(rt; errors, [0u8; 8]);
    }
}

#[test]
fn a_full_output(rt: HostRuntime) {
    for mut input in [INPUT, UNENDED] {
        let mut text = [0u8; 24];
        let mut errors = [0u8; 64];
        let ended = run_lines(&mut input, &mut text[..], &mut errors);
        assert!(rt; ended.is_err());
        assert!(rt; errors.starts_with(b"output: "));
    }
}

#[test]
fn failing_ends(rt: HostRuntime) {
    let mut text = [0u8; 25];
    let mut errors = [0u8; 64];
    let kind = ErrorKind::TimedOut;
    let ended = run_lines(&mut Failing { kind }, &mut text[..], &mut errors);
    assert!(rt; ended.is_err());
    assert_eq!(rt; text, [0u8; 25]);
    assert!(rt; errors.starts_with(b"input: "));
    let kind = ErrorKind::BrokenPipe;
    let mut errors = [0u8; 8];
    let ended = run_lines(&mut INPUT, Failing { kind }, &mut errors);
    assert!(rt; ended.is_err());
    assert_eq!(rt; errors, [0u8; 8]);
}

#[test]
fn nothing_handed_back(rt: HostRuntime) {
    let mut text = [0u8; 25];
    let mut errors = [0u8; 8];
    let mut piece = [0u8; 16];
    let mut out = [0u8; 8192];
    let outlets = &mut Outlets {
        output: &mut text[..],
        errors: &mut errors[..],
    };
    run_told(&mut INPUT, outlets, Tool::Lines, &mut piece, &mut out);
    assert_eq!(rt; text, *OUTPUT);
    assert_eq!(rt; errors, [0u8; 8]);
}
