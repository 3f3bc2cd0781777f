// The calls over a record that the host lends, exported to C. Each hands the record on, moves nothing, and packs how it ended into one number.
#![tactic(auto)]

ghost use Rattle.std.specs.Prelude.{◌≡◌, [], length, Ok};
ghost use Rattle.rules.specs.State.{start};
ghost use Rattle.rules.specs.AtHand.{at_hand};
ghost use Rattle.rules.specs.Command.{lending, command};
ghost use Rattle.rules.specs.Fetch.{fetch};
ghost use Rattle.rules.specs.Radio.{arrival, taking, dropping};
ghost use Rattle.rules.specs.TimerCalls.{passing, enveloping};
ghost use Rattle.alpha.specs.Reads.{reads};
ghost use Rattle.alpha.specs.Writes.{writes};
ghost use Rattle.alpha.specs.Calls.{fitted, laid, ended_of, leaves};
ghost use Rattle.session.specs.Calls.{Answers};
ghost use Rattle.session.specs.Picture.{Good, Shows, view};
ghost use Rattle.fetch.specs.Gathers.{gathered_of, gathered_in, Gathers};
ghost use Rattle.host.specs.Packed.{packed, packed_burst, packed_text, Texts, Fits, Hosts, HostsBurst};

use alpha;
use command::at_hand;
use fetch::{Fetched, Gathered, fetch_in, start_gathered};
use modem::command_in;
use radio::{arrival_in, dropping_in, taking_in};
use rules::{ChannelNumber, Refusal};
use session::Session;
use timers::{envelope_in, pass_second};

// How a call ended, in one number: the count, or 1000000 (hexadecimal) plus the refusal's number.
fn pack(ended: Result<usize, Refusal>) -> u32
    requires { Fits ended }
    ensures { result ≡ packed ended }
{
    match ended {
        Ok(count) => count as u32,
        Err(why) => 0x1000000 + why.number() as u32,
    }
}

// What one bit more than the lower half stands for, and the most that the upper half can tell.
const UPPER: u64 = 0x100000000;

const LEFT_CAP: u64 = 0xFFFFFFFF;

// How a burst ended, and in the upper half how many of its bytes are left, FFFFFFFF for that many and more.
fn pack_burst(fetched: Fetched) -> u64
    requires { Fits fetched.ended }
    ensures { result ≡ packed_burst fetched }
{
    let ended = fetched.ended;
    let left = fetched.left as u64;
    let told = pack(ended) as u64;
    if left < LEFT_CAP {
        return UPPER * left + told;
    }
    UPPER * LEFT_CAP + told
}

// What stands before the number of a refusal where a count has 64 bits.
const TEXT_REFUSED: u64 = 0x8000000000000000;

// How a reading or a writing of a text ended, in one number: the count, or 8000000000000000 (hexadecimal) plus the refusal's number.
fn pack_text(ended: Result<usize, Refusal>) -> u64
    ensures { result ≡ packed_text ended }
{
    match ended {
        Ok(count) => count as u64,
        Err(why) => TEXT_REFUSED + why.number() as u64,
    }
}

// A fresh session from profile bytes of any length, in the host's record, whatever it held.
#[unsafe(no_mangle)]
pub extern "C" fn pomerassol_start(s: &mut Session, profile: &[u8])
    ensures { Shows (start profile.now) s.new.ledger s.new.pool × Good s.new }
{
    s.restart(profile);
}

// The card sends a command.
#[unsafe(no_mangle)]
pub extern "C" fn pomerassol_command(s: &mut Session, bytes: &[u8], out: &mut [u8]) -> u32
    requires { Good s.old }
    ensures { Hosts (command (view s.old) (lending (length out.old)) bytes.now) s.new result out.old out.new }
{
    pack(command_in(s, bytes, out))
}

// The radio brings bytes for a channel.
#[unsafe(no_mangle)]
pub extern "C" fn pomerassol_arrival(
    s: &mut Session,
    channel: u8,
    bytes: &[u8],
    out: &mut [u8],
) -> u32
    requires { Good s.old }
    ensures { Hosts (arrival (view s.old) (length out.old) (record { 0 = channel }) bytes.now) s.new result out.old out.new }
{
    pack(arrival_in(s, ChannelNumber(channel), bytes, out))
}

// The radio takes the bytes of a channel that are ready, as many as fit.
#[unsafe(no_mangle)]
pub extern "C" fn pomerassol_take(s: &mut Session, channel: u8, out: &mut [u8]) -> u32
    requires { Good s.old }
    ensures { Hosts (taking (view s.old) (length out.old) (record { 0 = channel })) s.new result out.old out.new }
{
    pack(taking_in(s, ChannelNumber(channel), out))
}

// The radio tells that the link of a channel was dropped.
#[unsafe(no_mangle)]
pub extern "C" fn pomerassol_drop(s: &mut Session, channel: u8, out: &mut [u8]) -> u32
    requires { Good s.old }
    ensures { Hosts (dropping (view s.old) (length out.old) (record { 0 = channel })) s.new result out.old out.new }
{
    pack(dropping_in(s, ChannelNumber(channel), out))
}

// A second passes for the timers.
#[unsafe(no_mangle)]
pub extern "C" fn pomerassol_second(s: &mut Session)
    requires { Good s.old }
    ensures { Answers (passing (view s.old)) s.new.ledger s.new.pool (Ok 0) [] [] }
{
    pass_second(s);
}

// The envelope of the lowest timer that waits.
#[unsafe(no_mangle)]
pub extern "C" fn pomerassol_envelope(s: &mut Session, out: &mut [u8]) -> u32
    requires { Good s.old }
    ensures { Hosts (enveloping (view s.old) (length out.old)) s.new result out.old out.new }
{
    pack(envelope_in(s, out))
}

// What command is at hand: number, type and qualifier in one number, or R2; from the outer head and the first object alone.
#[unsafe(no_mangle)]
pub extern "C" fn pomerassol_details(bytes: &[u8]) -> u32
    ensures { result ≡ at_hand bytes.now }
{
    at_hand(bytes)
}

// The text of an alpha identifier, as 16-bit units.
#[unsafe(no_mangle)]
pub extern "C" fn pomerassol_alpha_read(value: &[u8], out: &mut [u16]) -> u64
    ensures texts { Texts (ended_of (reads value.now) (length out.old)) result }
    ensures out_after { out.new ≡ leaves (reads value.now) out.old }
{
    pack_text(alpha::read(value, out))
}

// The alpha identifier of a text, in its shortest coding.
#[unsafe(no_mangle)]
pub extern "C" fn pomerassol_alpha_write(units: &[u16], out: &mut [u8]) -> u64
    ensures texts { Texts (fitted (writes units.now) (length out.old)) result }
    ensures out_after { out.new ≡ laid (writes units.now) out.old }
{
    pack_text(alpha::write(units, out))
}

// Nothing is gathered of a command, whatever the memory held.
#[unsafe(no_mangle)]
pub extern "C" fn pomerassol_fetch_start(gathered: &mut [u8; Gathered::SIZE])
    ensures { gathered.new ≡ gathered_of [] }
{
    start_gathered(gathered)
}

// The card's bytes come off the line, a burst of them.
#[unsafe(no_mangle)]
pub extern "C" fn pomerassol_fetch(
    s: &mut Session,
    gathered: &mut [u8; Gathered::SIZE],
    bytes: &[u8],
    out: &mut [u8],
) -> u64
    requires { Good s.old × Gathers gathered.old }
    ensures { HostsBurst (fetch (view s.old) (lending (length out.old)) (gathered_in gathered.old) bytes.now) s.new gathered.new result out.old out.new }
{
    pack_burst(fetch_in(s, gathered, bytes, out))
}
