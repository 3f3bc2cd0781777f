// Lines of text: read as frames and calls, and printed.
#![tactic(auto)]

ghost use Rattle.std.specs.Prelude.{ℕ, ◌≡◌, true, List, [], ◌∷◌, ◌+◌, ◌*◌, ◌≤◌, ◌<◌, length};
ghost use Rattle.std.proofs.Math.Option.{Option, none};
ghost use Rattle.rules.specs.declared.Refusal.TheVariants.{Unreadable};
ghost use Rattle.rules.specs.Command.{wrote, refused};
ghost use Rattle.rules.specs.Lines.{is_digit, digit_value, digit_of, bytes_of, frame_of, call_of, hex, last_digit, zeros_before, decimal, printed};
ghost use Rattle.octets.specs.Parts.{overlaid};
ghost use Rattle.text.specs.Sizes.{frame_cap, least_value, short_line, decimal_cap};
ghost use Rattle.text.specs.Frames.{readable, frame_told, frame_bytes};
ghost use Rattle.text.specs.Calls.{call_spoken};
ghost use Rattle.text.specs.Prints.{count_of, outcome_of, line_of, Prints};
ghost use Rattle.text.specs.Telling.{TakesFrames, PrintsFrames};

use octets;
use rules::{ChannelNumber, Refusal};

// The numbers of lines.
#[derive(Drop)]
pub struct Line {}

impl Line {
    // The most bytes of a frame, and their digits.
    pub const FRAME: usize = 1600;

    pub const DIGITS: usize = 3200;

    // The greatest count of a take.
    pub const TAKEN: usize = 1500;
}

// The call that a frame asks for.
#[derive(Clone, Copy)]
pub enum Spoken {
    Command,
    Arrival(ChannelNumber),
    Take(ChannelNumber, usize),
    Drop(ChannelNumber),
}

// Whether a character is a hexadecimal digit, in either case.
#[tactic(auto, unfolding(rules::specs::Lines::is_digit))]
pub fn is_digit(c: u8) -> bool
    ensures { result ≡ is_digit c }
{
    c.is_ascii_hexdigit()
}

// What a digit stands for.
#[tactic(auto, using(rules::proofs::Laws::checks, crate::proofs::Digits::digit_ranges), unfolding(rules::specs::Lines::digit_value))]
pub fn digit_value(c: u8) -> u8
    requires { is_digit c ≡ true }
    ensures { result ≡ digit_value c }
{
    match c {
        b'0'..=b'9' => c - b'0',
        b'A'..=b'F' => c - b'A' + 10,
        _ => c - b'a' + 10,
    }
}

// Whether a line is digits in pairs.
fn readable(line: &[u8]) -> bool
    ensures { result ≡ readable (bytes_of line.now) }
{
    line.len() % 2 == 0 && line.iter().all(u8::is_ascii_hexdigit)
}

// Reads a line as a frame, whose bytes go to the front of `out`, and tells how many they are; an unreadable line writes nothing.
pub fn read_frame(line: &[u8], out: &mut [u8]) -> Option<usize>
    requires { frame_cap ≤ length out.old }
    ensures value { result ≡ frame_told (frame_of line.now) }
    ensures out_after { out.new ≡ overlaid (frame_bytes (frame_of line.now)) out.old }
{
    if Line::DIGITS < line.len() {
        return None;
    }
    if !readable(line) {
        return None;
    }
    let n = line.len() / 2;
    for i in 0..n {
        out[i] = 16 * digit_value(line[2 * i]) + digit_value(line[2 * i + 1]);
    }
    Some(n)
}

// The call that a frame asks for: D0 a command, A0 an arrival, A1 a take, A2 a drop.
#[tactic(auto, using(crate::proofs::Calls::call_laws), unfolding(rules::specs::Reading::pair_in, rules::specs::Lines::call_of, crate::specs::Calls::call_spoken))]
pub fn read_call(frame: &[u8]) -> Option<Spoken>
    ensures { call_of frame.now ≡ call_spoken result frame.now }
{
    match frame {
        [0xD0, ..] => Some(Spoken::Command),
        [0xA0, n, ..] => Some(Spoken::Arrival(ChannelNumber(*n))),
        [0xA1, n, high, low] => {
            let count = usize::from(u16::from_be_bytes([*high, *low]));
            (count <= Line::TAKEN).then_some(Spoken::Take(ChannelNumber(*n), count))
        }
        [0xA2, n] => Some(Spoken::Drop(ChannelNumber(*n))),
        _ => None,
    }
}

// A digit in capitals.
#[tactic(auto, using(rules::proofs::Laws::checks), unfolding(rules::specs::Lines::digit_of))]
fn digit(n: u8) -> u8
    requires { n < 16 }
    ensures { result ≡ digit_of n }
{
    match n {
        0..=9 => b'0' + n,
        _ => b'A' + (n - 10),
    }
}

// Prints a character, and tells the place behind it.
pub fn print_char(out: &mut [u8], at: usize, c: u8) -> usize
    requires { at < length out.old }
    ensures { Prints (c ∷ []) result out.old at out.new }
{
    out[at] = c;
    at + 1
}

// Prints bytes in capitals, two digits for each, and tells the place behind them.
pub fn print_bytes(out: &mut [u8], at: usize, bytes: &[u8]) -> usize
    requires { at + 2 * length bytes.now ≤ length out.old }
    ensures { Prints (hex bytes.now) result out.old at out.new }
{
    let mut end = at;
    for b in bytes {
        end = print_char(out, end, digit(b / 16));
        end = print_char(out, end, digit(b % 16));
    }
    end
}

// The last decimal digit of a number.
fn last_digit(n: usize) -> u8
    ensures { result ≡ last_digit n }
{
    b'0' + (n % 10) as u8
}

// How many of the four digits of a number are zeros in front.
#[tactic(auto, using(rules::proofs::Laws::checks), unfolding(rules::specs::Lines::zeros_before))]
fn zeros_before(n: usize) -> usize
    ensures { result ≡ zeros_before n }
{
    match n {
        0..=9 => 3,
        10..=99 => 2,
        100..=999 => 1,
        _ => 0,
    }
}

// Prints a number in decimal, without zeros in front, and tells the place behind it.
// Kept: at most four digits, at a place of lent memory. The library prints a number through a formatter or into memory that it asks for, which is no plainer.
pub fn print_decimal(out: &mut [u8], at: usize, n: usize) -> usize
    requires { (n < decimal_cap) × (at + length (decimal n) ≤ length out.old) }
    ensures { Prints (decimal n) result out.old at out.new }
{
    let digits = [
        last_digit(n / 1000),
        last_digit(n / 100),
        last_digit(n / 10),
        last_digit(n),
    ];
    let zeros = zeros_before(n);
    octets::put_part(out, at, &digits, zeros, 4);
    at + (4 - zeros)
}

// Prints a value, its bytes or "--" where there are none, and tells the place behind it.
pub fn print_value(out: &mut [u8], at: usize, bytes: &[u8]) -> usize
    requires { at + 2 * length bytes.now + least_value ≤ length out.old }
    ensures { Prints (printed (wrote bytes.now)) result out.old at out.new }
{
    if bytes.is_empty() {
        octets::put(out, at, b"--");
        return at + 2;
    }
    print_bytes(out, at, bytes)
}

// Prints the line for bytes that were written, and tells the place behind it.
fn print_written(out: &mut [u8], at: usize, bytes: &[u8]) -> usize
    requires { at + 2 * length bytes.now + short_line ≤ length out.old }
    ensures { Prints (line_of (wrote bytes.now)) result out.old at out.new }
{
    let end = print_value(out, at, bytes);
    print_char(out, end, b'\n')
}

// Prints the line for a refusal, R and its number, and tells the place behind it.
pub fn print_refusal(out: &mut [u8], at: usize, refusal: Refusal) -> usize
    requires { at + short_line ≤ length out.old }
    ensures { Prints (line_of (refused refusal)) result out.old at out.new }
{
    let start = print_char(out, at, b'R');
    let end = print_decimal(out, start, usize::from(refusal.number()));
    print_char(out, end, b'\n')
}

// Prints a line into `out` from `at` on: the bytes written, in capitals, "--" if none, or R and the number; tells the place behind it.
pub fn print(out: &mut [u8], at: usize, ended: Result<usize, Refusal>, bytes: &[u8]) -> usize
    requires { (count_of ended ≤ length bytes.now) × (at + 2 * length bytes.now + short_line ≤ length out.old) }
    ensures { Prints (line_of (outcome_of ended bytes.now)) result out.old at out.new }
{
    match ended {
        Ok(count) => print_written(out, at, &bytes[..count]),
        Err(refusal) => print_refusal(out, at, refusal),
    }
}

// Prints what `tell` prints of the frame of a line, R9 where the line is unreadable; tells the place behind it.
pub fn answer<F: FnOnce(&[u8], &mut [u8], usize) -> usize>(
    tell: F,
    line: &[u8],
    out: &mut [u8],
    at: usize,
) -> usize
    requires takes { TakesFrames (F.pre tell) (length out.old) at }
    requires room { at + short_line ≤ length out.old }
    ensures { (told : Option (List ℕ) → List ℕ) → told none ≡ line_of (refused Unreadable) → PrintsFrames (F.post tell) told at → Prints (told (frame_of line.now)) result out.old at out.new }
{
    let mut frame = [0u8; Line::FRAME];
    let Some(n) = read_frame(line, &mut frame) else {
        return print_refusal(out, at, Refusal::Unreadable);
    };
    tell(&frame[..n], out, at)
}
