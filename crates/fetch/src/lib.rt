// Bytes as they come off the line: gathered in a lent record until they are a command, which is then handed on.
#![tactic(auto)]

ghost use Rattle.std.specs.Prelude.{◌≡◌, [], ◌-◌, ◌≤◌, length, take, drop};
ghost use Rattle.rules.specs.Command.{lending, command};
ghost use Rattle.rules.specs.Fetch.{length_to_come, lacking_by, stage, fetch};
ghost use Rattle.octets.specs.Parts.{pasted};
ghost use Rattle.session.specs.Picture.{Good, view};
ghost use Rattle.session.specs.Calls.{Answers};
ghost use Rattle.fetch.specs.Gathers.{gathered_size, gathered_of, gathered_in, Gathers, Partial, brought, concluded, Leaves, Fetches};

use modem::command_in;
use objects::length_at;
use octets;
use rules::{Limits, Refusal, Stage};
use session::Session;

// What was gathered of a command: its bytes, 0 behind them, and last their count.
#[derive(Drop)]
pub struct Gathered {}

impl Gathered {
    // The most bytes of a command, and the place of their count.
    pub const MOST: usize = 256;

    pub const COUNT_AT: usize = 256;

    pub const SIZE: usize = 257;
}

// How a burst ended, and how many of its bytes are left.
#[derive(Clone, Copy)]
pub struct Fetched {
    pub ended: Result<usize, Refusal>,
    pub left: usize,
}

// The first byte of a command, and that of a length in the longer form.
const COMMAND_TAG: u8 = 0xD0;

const LONGER_FORM: u8 = 0x81;

// So many bytes, of which `here` stand behind a length of `len`: how many are lacking, unless that is too long.
fn lacking(count: usize, len: usize, here: usize) -> Stage
    requires { count ≤ 256 }
    ensures { result ≡ lacking_by count (len - here) }
{
    if len <= here {
        return Stage::Decided;
    }
    let more = len - here;
    if Gathered::MOST - count < more {
        return Stage::Overlong;
    }
    Stage::Lacks(more)
}

// Whether nothing of the outer length came, or 81 alone.
fn length_to_come(s: &[u8]) -> bool
    ensures { result ≡ length_to_come (drop 1 s.now) }
{
    if s.len() < 2 {
        return true;
    }
    if 2 < s.len() {
        return false;
    }
    s[1] == LONGER_FORM
}

// What gathered bytes are, by their outer head.
fn stage_of(s: &[u8]) -> Stage
    requires { length s.now ≤ 256 }
    ensures { result ≡ stage s.now }
{
    if s.len() == 0 {
        return Stage::Lacks(1);
    }
    if s[0] != COMMAND_TAG {
        return Stage::Decided;
    }
    if length_to_come(s) {
        return Stage::Lacks(1);
    }
    match length_at(s, 1) {
        Some(length) => lacking(s.len(), length.count, s.len() - length.start),
        None => Stage::Decided,
    }
}

// Gathers bytes of a burst behind the `held` ones, as many at a time as are surely lacking, until what they are can be told; tells how many were taken.
fn bring(gathered: &mut [u8], held: usize, bytes: &[u8]) -> usize
    requires { (length gathered.old ≡ gathered_size) × (held ≤ 256) }
    ensures value { result ≡ length (brought (take held gathered.old) bytes.now) }
    ensures gathered_after { gathered.new ≡ pasted gathered.old held (brought (take held gathered.old) bytes.now) }
{
    let mut taken: usize = 0;
    while taken < bytes.len() {
        let count = held + taken;
        match stage_of(&gathered[..count]) {
            Stage::Lacks(n) => {
                let end = taken + n.min(bytes.len() - taken);
                octets::put_part(gathered, count, bytes, taken, end);
                taken = end;
            }
            Stage::Overlong => return taken,
            Stage::Decided => return taken,
        }
    }
    taken
}

// The gathered bytes go to the command call, and are gone.
fn hand_on(
    session: &mut Session,
    gathered: &mut [u8],
    count: usize,
    out: &mut [u8],
) -> Result<usize, Refusal>
    requires { Good session.old × Partial gathered.old count }
    ensures { Answers (command (view session.old) (lending (length out.old)) (take count gathered.old)) session.new.ledger session.new.pool result out.old out.new × (gathered.new ≡ gathered_of []) }
{
    let ended = command_in(session, &gathered[..count], out);
    octets::clear(gathered, 0, Gathered::SIZE);
    ended
}

// What the gathered bytes come to: they are kept, or dropped with R2, or go to the command call.
fn conclude(
    session: &mut Session,
    gathered: &mut [u8],
    count: usize,
    out: &mut [u8],
) -> Result<usize, Refusal>
    requires { Good session.old × Partial gathered.old count }
    ensures { Leaves (concluded (view session.old) (lending (length out.old)) (take count gathered.old) [] (stage (take count gathered.old))) session.new.ledger session.new.pool gathered.new result out.old out.new }
{
    match stage_of(&gathered[..count]) {
        Stage::Lacks(_) => {
            gathered[Gathered::COUNT_AT] = count as u8;
            Ok(0)
        }
        Stage::Overlong => {
            octets::clear(gathered, 0, Gathered::SIZE);
            Err(Refusal::CommandSize)
        }
        Stage::Decided => hand_on(session, gathered, count, out),
    }
}

// A burst of bytes, over the lent record and the gathered one.
pub fn fetch_in(
    session: &mut Session,
    gathered: &mut [u8; Gathered::SIZE],
    bytes: &[u8],
    out: &mut [u8],
) -> Fetched
    requires { Good session.old × Gathers gathered.old }
    ensures { Fetches (fetch (view session.old) (lending (length out.old)) (gathered_in gathered.old) bytes.now) session.new.ledger session.new.pool gathered.new result out.old out.new }
{
    if out.len() < Limits::RESPONSE {
        return Fetched {
            ended: Err(Refusal::ShortBuffer),
            left: bytes.len(),
        };
    }
    let held = gathered[Gathered::COUNT_AT] as usize;
    let taken = bring(gathered, held, bytes);
    let ended = conclude(session, gathered, held + taken, out);
    Fetched {
        ended,
        left: bytes.len() - taken,
    }
}

// Nothing is gathered, whatever the memory held.
pub fn start_gathered(gathered: &mut [u8; Gathered::SIZE])
    ensures { gathered.new ≡ gathered_of [] }
{
    *gathered = [0u8; Gathered::SIZE];
}
