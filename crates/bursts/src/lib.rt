// The tool for bytes as they come off the line: the first line is the profile, each further one a burst, of which it prints how it ended and how many of its bytes are left.
#![tactic(auto)]

ghost use Rattle.std.specs.Prelude.{◌+◌, ◌≤◌, length};
ghost use Rattle.session.specs.Picture.{Good};
ghost use Rattle.text.specs.Sizes.{frame_cap, line_cap};
ghost use Rattle.fetch.specs.Gathers.{Gathers};
ghost use Rattle.bursts.specs.Bursts.{awaits_in, burst_said, burst_ends, Tells};

use fetch::{Gathered, fetch_in};
use lines::begin;
use rules::{Limits, Refusal};
use session::Session;
use text::{Line, print, print_char, print_decimal, print_refusal, read_frame};

// Performs a burst, and prints how it ended and how many of its bytes are left; tells the place behind that.
fn perform_burst(
    session: &mut Session,
    gathered: &mut [u8; Gathered::SIZE],
    bytes: &[u8],
    out: &mut [u8],
    at: usize,
) -> usize
    requires { Good session.old × Gathers gathered.old × (length bytes.now ≤ frame_cap) × (at + line_cap ≤ length out.old) }
    ensures { Tells (burst_said (awaits_in session.old.ledger session.old.pool gathered.old) bytes.now) session.new.ledger session.new.pool gathered.new result out.old at out.new }
{
    let mut reply = [0u8; Limits::RESPONSE];
    let fetched = fetch_in(session, gathered, bytes, &mut reply);
    let end = print(out, at, fetched.ended, &reply);
    let blank = print_char(out, end - 1, b' ');
    let behind = print_decimal(out, blank, fetched.left);
    print_char(out, behind, b'\n')
}

// Performs a line: the first, which is the profile, or a burst, R9 where it is unreadable; tells the place behind what it prints.
pub fn tell_burst(
    begun: bool,
    session: &mut Session,
    gathered: &mut [u8; Gathered::SIZE],
    line: &[u8],
    out: &mut [u8],
    at: usize,
) -> usize
    requires { Good session.old × Gathers gathered.old × (at + line_cap ≤ length out.old) }
    ensures { Tells (burst_ends begun (awaits_in session.old.ledger session.old.pool gathered.old) line.now) session.new.ledger session.new.pool gathered.new result out.old at out.new }
{
    if !begun {
        return begin(session, line, out, at);
    }
    let mut frame = [0u8; Line::FRAME];
    let Some(n) = read_frame(line, &mut frame) else {
        return print_refusal(out, at, Refusal::Unreadable);
    };
    perform_burst(session, gathered, &frame[..n], out, at)
}
