// A tool over an input: a piece of it is read, its lines are answered, and the answers go to the output. A read or a write that fails is told on another output, that of errors.
#![tactic(auto)]

ghost use Rattle.std.specs.Prelude.{◌≡◌, ◌≤◌, length, OnOk};
ghost use Rattle.flow.specs.Flow.{printed_size, feeds};
ghost use Rattle.tools.specs.Tools.{ends};
ghost use Rattle.tools.specs.Machines.{reader_of};

use std::io;
use std::io::{ErrorKind, Read, Write};
use tools::{Machine, Tool};

// What stands between the system's text of an error and the error's number, where std writes both.
const NUMBER: &[u8] = b" (os error ";

// Where the text of an error ends in what std writes of the error: in front of its number, or else where zeros begin.
fn text_len(written: &[u8]) -> usize
    ensures { result ≤ length written.now }
{
    for n in 0..written.len() {
        if written[n] == 0 || written[n..].starts_with(NUMBER) {
            return n;
        }
    }
    written.len()
}

// A read or a write failed; that was told, but for a write to a closed pipe.
#[derive(Clone, Copy)]
pub struct Failed {}

// Where a tool writes: its answers, and what fails.
#[derive(Drop)]
pub struct Outlets<O, E> {
    pub output: O,
    pub errors: E,
}

impl<O: Write, E: Write> Outlets<O, E> {
    // Writes a line: what failed, as the caller names it, a colon and the system's text of the error.
    pub fn fail(&mut self, what: &[u8], error: io::Error) {
        let mut text = [0u8; 256];
        let mut room = &mut text[..];
        let _ = write!(room, "{error}");
        let n = text_len(&text);
        for part in [what, b": ", &text[..n], b"\n"] {
            let _ = self.errors.write_all(part);
        }
    }

    // Writes bytes to the output. That it could not is told among the errors, but for a closed pipe.
    fn write(&mut self, bytes: &[u8]) -> Result<(), Failed> {
        let Err(error) = self.output.write_all(bytes) else {
            return Ok(());
        };
        if error.kind() != ErrorKind::BrokenPipe {
            self.fail(b"output", error);
        }
        Err(Failed {})
    }
}

// Answers the lines of a piece of the input, and writes the answers as often as the output might not hold more.
fn feed_all<O: Write, E: Write>(
    outlets: &mut Outlets<O, E>,
    tool: Tool,
    machine: &mut Machine,
    piece: &[u8],
    out: &mut [u8],
) -> Result<(), Failed>
    requires { printed_size ≤ length out.old }
    ensures { OnOk result (reader_of machine.new ≡ (feeds (ends tool) (reader_of machine.old) piece.now).reader) }
{
    let mut rest = piece;
    while !rest.is_empty() {
        let progress = machine.fill(tool, rest, out);
        outlets.write(&out[..progress.at])?;
        rest = &rest[progress.next..];
    }
    Ok(())
}

// Runs a tool over an input: reads it piece by piece and answers the lines of each, and at its end what is left of one, and tells whether a read or a write failed. The pieces are bounded by a number that no input uses up.
pub fn run<I: Read, O: Write, E: Write>(
    input: &mut I,
    outlets: &mut Outlets<O, E>,
    tool: Tool,
    piece: &mut [u8],
    out: &mut [u8],
) -> Result<(), Failed>
    requires { printed_size ≤ length out.old }
{
    let mut machine = Machine::new();
    for _ in 0..u64::MAX {
        let n = match input.read(piece) {
            Ok(n) => n,
            Err(error) => {
                outlets.fail(b"input", error);
                return Err(Failed {});
            }
        };
        if n == 0 {
            let last = machine.finish(tool, out);
            return outlets.write(&out[..last.at]);
        }
        feed_all(outlets, tool, &mut machine, &piece[..n], out)?;
    }
    Ok(())
}

// Runs a tool over an input as `run` does, and hands back nothing: what failed was told, but for a closed pipe.
pub fn run_told<I: Read, O: Write, E: Write>(
    input: &mut I,
    outlets: &mut Outlets<O, E>,
    tool: Tool,
    piece: &mut [u8],
    out: &mut [u8],
)
    requires { printed_size ≤ length out.old }
{
    let _ = run(input, outlets, tool, piece, out);
}

#[cfg(test)]
mod tests;
