// What command is at hand, as a line tool: the details of a command from a line, in three bytes.
#![tactic(auto)]

ghost use Rattle.std.proofs.Math.Option.{some};
ghost use Rattle.std.specs.Prelude.{◌+◌, ◌≤◌, length};
ghost use Rattle.text.specs.Prints.{Prints};
ghost use Rattle.details.specs.Printed.{room, hand_line, details_line};

use command::details_told;
use rules::{Limits, Refusal};
use text::{answer, print, print_refusal};

// Prints the details of the command in a frame, or R2.
fn print_details(s: &[u8], out: &mut [u8], at: usize) -> usize
    requires { at + room ≤ length out.old }
    ensures { Prints (hand_line (some s.now)) result out.old at out.new }
{
    if s.is_empty() || Limits::COMMAND < s.len() {
        return print_refusal(out, at, Refusal::CommandSize);
    }
    let d = details_told(s);
    let bytes = [d.number, d.kind, d.qualifier];
    print(out, at, Ok(3), &bytes)
}

// Prints the details of the command in a line, R2 where it has no bytes or too many, R9 where the line is unreadable; tells the place behind them.
pub fn tell_details(line: &[u8], out: &mut [u8], at: usize) -> usize
    requires { at + room ≤ length out.old }
    ensures { Prints (details_line line.now) result out.old at out.new }
{
    answer(print_details, line, out, at)
}
