// Exchange with +CSIM logs, as two line tools: a line of a log into ours, and back.
#![tactic(auto)]

ghost use Rattle.std.specs.Prelude.{◌≡◌, ◌+◌, ◌≤◌, ◌<◌, length, Some, None, IfSome, MatchOption, MatchResult};
ghost use Rattle.std.proofs.Math.Option.{none, some};
ghost use Rattle.rules.specs.declared.Refusal.TheVariants.{NoRecord};
ghost use Rattle.rules.specs.Lines.{frame_of};
ghost use Rattle.text.specs.Prints.{Prints};
ghost use Rattle.text.specs.Sizes.{frame_cap};
ghost use Rattle.csim.specs.Kinds.{instruction_of, header_of, lead_of, leads, by_kind};
ghost use Rattle.csim.specs.Records.{imported, unfit, cleaned, digits_in, shape_of, leading_zero, count_is, framed, counted, record_in};
ghost use Rattle.csim.specs.Exports.{export_of, export_in};
ghost use Rattle.csim.specs.Printed.{room, longest, record_line, import_line, csim_line, export_line};
ghost use Rattle.csim.specs.Proper.{Proper};
ghost use Rattle.csim.specs.Props.{Proper-prop};

use octets;
use rules::Refusal;
use text::{Line, print_bytes, print_char, print_decimal, print_refusal, read_frame};

// The command strings of a log that are read.
#[derive(Clone, Copy)]
pub enum Kind {
    Profile,
    Response,
    Envelope,
}

impl Kind {
    // All of them, in the order in which they are tried.
    const ALL: [Kind; 3] = [Kind::Profile, Kind::Response, Kind::Envelope];

    // The second byte of its header.
    fn instruction(self) -> u8
        ensures { result ≡ instruction_of self }
    {
        match self {
            Kind::Profile => 0x10,
            Kind::Response => 0x14,
            Kind::Envelope => 0xC2,
        }
    }

    // Its header: class, instruction, P1 and P2.
    fn header(self) -> [u8; 4]
        ensures { result ≡ header_of self }
    {
        [0x80, self.instruction(), 0, 0]
    }

    // Its word and the blank behind it, which stand before the digits of our line.
    fn lead(self) -> &'static [u8]
        ensures word { result.now ≡ lead_of self }
        ensures few { length result.now ≤ Log.LEAD }
    {
        match self {
            Kind::Profile => b"profile ",
            Kind::Response => b"response ",
            Kind::Envelope => b"envelope ",
        }
    }
}

// The numbers of a command string and of its lines.
#[derive(Drop)]
pub struct Log {}

impl Log {
    // The place of P3, the bytes before the data, the fewest of all, and the most of the data.
    pub const P3: usize = 4;

    pub const HEAD: usize = 5;

    pub const LEAST: usize = 6;

    pub const DATA: usize = 255;

    // The characters of the longest word of ours with its blank, of `AT+CSIM=`, and of that with the comma and the quote behind the count.
    pub const LEAD: usize = 9;

    pub const OPENING: usize = 8;

    pub const AROUND: usize = 10;
}

// The character that is passed over, wherever it stands in a line of a log.
const BLANK: u8 = b' ';

// A command string: its kind, and its data, which P3 can count.
#[derive(Clone, Copy)]
struct Command<'a> {
    kind: Kind,
    bytes: &'a [u8],
    ghost few: { length bytes.now ≤ 255 },
}

// What a line without blanks has: a count without a zero in front, and the characters between its quotes.
#[derive(Clone, Copy)]
struct Counted<'a> {
    count: &'a [u8],
    quoted: &'a [u8],
    ghost proper: { Proper count.now } by { Proper-prop count.now },
    ghost few: { length quoted.now ≤ longest },
}

// The kind whose header a frame begins with.
fn kind_of_frame(s: &[u8]) -> Option<Kind>
    ensures { result ≡ by_kind (λ k. leads (header_of k) s.now) Some None }
{
    Kind::ALL
        .iter()
        .copied()
        .find(|kind| s.starts_with(&kind.header()))
}

// The kind whose word and blank a line of ours begins with.
fn kind_of_line(line: &[u8]) -> Option<Kind>
    ensures { result ≡ by_kind (λ k. leads (lead_of k) line.now) Some None }
{
    Kind::ALL
        .iter()
        .copied()
        .find(|kind| line.starts_with(kind.lead()))
}

// Writes a line without its blanks, in capitals, to the front of `out`, and tells how many characters that are.
fn clean(line: &[u8], out: &mut [u8]) -> usize
    requires { length line.now ≤ length out.old }
    ensures { Prints (cleaned line.now) result out.old 0 out.new }
{
    let mut n: usize = 0;
    for &c in line {
        if c != BLANK {
            out[n] = c.to_ascii_uppercase();
            n += 1;
        }
    }
    n
}

// How many decimal digits stand at the front.
fn count_digits(s: &[u8]) -> usize
    ensures count { result ≡ length (digits_in s.now) }
    ensures within { result ≤ length s.now }
{
    s.iter().take_while(|c| c.is_ascii_digit()).count()
}

// How many digits the count of a line without blanks, in capitals, has; none where the line has another shape.
fn shape_of(text: &[u8]) -> Option<usize>
    ensures value { result ≡ shape_of text.now }
    ensures long { IfSome result (λ k. Log.AROUND + k < length text.now) }
{
    if !text.starts_with(b"AT+CSIM=") {
        return None;
    }
    let k = count_digits(&text[Log::OPENING..]);
    if k == 0 {
        return None;
    }
    if !text[Log::OPENING + k..].starts_with(b",\"") {
        return None;
    }
    if text.len() <= Log::AROUND + k {
        return None;
    }
    if !text.ends_with(b"\"") {
        return None;
    }
    Some(k)
}

// Whether a count has a zero in front.
#[tactic(auto, unfolding(crate::specs::Records::leading_zero))]
fn is_padded(count: &[u8]) -> bool
    ensures { result ≡ leading_zero count.now }
{
    1 < count.len() && count[0] == b'0'
}

// Whether a count without zeros in front is a number: its digits are those of the number.
fn count_is(count: &[u8], n: usize) -> bool
    requires { Proper count.now × (n < 10000) }
    ensures { result ≡ count_is count.now n }
{
    let mut digits = [0u8; 4];
    let size = print_decimal(&mut digits, 0, n);
    count == &digits[..size]
}

// Reads a frame behind its count.
fn read_counted<'a>(count: &[u8], s: &'a [u8]) -> Result<Command<'a>, Refusal>
    requires { Proper count.now × (length s.now ≤ 1600) }
    ensures { MatchResult result (λ r. framed count.now (some s.now) ≡ imported r.kind r.bytes.now) (λ e. framed count.now (some s.now) ≡ unfit e) }
{
    let kind = kind_of_frame(s).ok_or(Refusal::NoRecord)?;
    let n = s.len();
    if n < Log::LEAST {
        return Err(Refusal::NoRecord);
    }
    if !count_is(count, 2 * n) {
        return Err(Refusal::WrongCount);
    }
    if usize::from(s[Log::P3]) != n - Log::HEAD {
        return Err(Refusal::WrongCount);
    }
    Ok(Command {
        kind,
        bytes: &s[Log::HEAD..],
    })
}

// Reads a line without blanks, in capitals; none where it has another shape, or a zero in front of its count.
fn read_text<'a>(text: &'a [u8]) -> Option<Counted<'a>>
    requires { length text.now ≤ longest }
    ensures { MatchOption result (record_in text.now ≡ unfit NoRecord) (λ r. record_in text.now ≡ counted r.count.now r.quoted.now) }
{
    let k = shape_of(text)?;
    let count = &text[Log::OPENING..Log::OPENING + k];
    if is_padded(count) {
        return None;
    }
    Some(Counted {
        count,
        quoted: &text[Log::AROUND + k..text.len() - 1],
    })
}

// Reads the characters behind a count, R17 where they are none, R18 where the count or P3 is wrong; their frame goes to the front of `frame`.
fn read_logged<'a>(text: Counted, frame: &'a mut [u8]) -> Result<Command<'a>, Refusal>
    requires { frame_cap ≤ length frame.old }
    ensures { MatchResult result (λ r. counted text.entry.count.now text.entry.quoted.now ≡ imported r.kind r.bytes.now) (λ e. counted text.entry.count.now text.entry.quoted.now ≡ unfit e) }
{
    let n = read_frame(text.quoted, frame).ok_or(Refusal::NoRecord)?;
    read_counted(text.count, &frame[..n])
}

// Prints characters, and tells the place behind them.
fn print_string(out: &mut [u8], at: usize, s: &[u8]) -> usize
    requires { at + length s.now ≤ length out.old }
    ensures { Prints s.now result out.old at out.new }
{
    octets::put(out, at, s);
    at + s.len()
}

// Prints our line of a command string, and tells the place behind it.
#[tactic(auto, using(text::proofs::Printing::hex_size))]
fn print_record(command: Command, out: &mut [u8], at: usize) -> usize
    requires { at + room ≤ length out.old }
    ensures { Prints (record_line (imported command.entry.kind command.entry.bytes.now)) result out.old at out.new }
{
    let start = print_string(out, at, command.kind.lead());
    let end = print_bytes(out, start, command.bytes);
    print_char(out, end, b'\n')
}

// Prints what a count and the characters behind it give, and tells the place behind it.
fn import_counted(text: Counted, out: &mut [u8], at: usize) -> usize
    requires { at + room ≤ length out.old }
    ensures { Prints (record_line (counted text.entry.count.now text.entry.quoted.now)) result out.old at out.new }
{
    let mut frame = [0u8; Line::FRAME];
    match read_logged(text, &mut frame) {
        Ok(command) => print_record(command, out, at),
        Err(refusal) => print_refusal(out, at, refusal),
    }
}

// Prints the kind and the data of a line of a +CSIM log, R17 where it is none, R18 where its count or P3 is wrong; tells the place behind them.
pub fn tell_import(line: &[u8], out: &mut [u8], at: usize) -> usize
    requires { at + room ≤ length out.old }
    ensures { Prints (import_line line.now) result out.old at out.new }
{
    if Line::DIGITS < line.len() {
        return print_refusal(out, at, Refusal::NoRecord);
    }
    let mut text = [0u8; Line::DIGITS];
    let n = clean(line, &mut text);
    match read_text(&text[..n]) {
        Some(counted) => import_counted(counted, out, at),
        None => print_refusal(out, at, Refusal::NoRecord),
    }
}

// Reads the digits behind the word of a kind, whose frame goes to the front of `frame`; none where they are R17.
fn read_asked<'a>(kind: Kind, digits: &[u8], frame: &'a mut [u8]) -> Option<Command<'a>>
    requires { frame_cap ≤ length frame.old }
    ensures { MatchOption result (export_in kind (frame_of digits.now) ≡ none) (λ r. export_in kind (frame_of digits.now) ≡ some (export_of r.kind r.bytes.now)) }
{
    let n = read_frame(digits, frame)?;
    if n == 0 || Log::DATA < n {
        return None;
    }
    Some(Command {
        kind,
        bytes: &frame[..n],
    })
}

// Prints the line of a log for a command string, and tells the place behind it.
#[tactic(auto, using(text::proofs::Printing::hex_size, text::proofs::Printing::decimal_few))]
fn print_csim(command: Command, out: &mut [u8], at: usize) -> usize
    requires { at + room ≤ length out.old }
    ensures { Prints (csim_line (some (export_of command.entry.kind command.entry.bytes.now))) result out.old at out.new }
{
    let size = command.bytes.len();
    let count = print_string(out, at, b"AT+CSIM=");
    let quote = print_decimal(out, count, 2 * (Log::HEAD + size));
    let first = print_string(out, quote, b",\"");
    let headed = print_bytes(out, first, &command.kind.header());
    let behind = print_bytes(out, headed, &[size as u8]);
    let end = print_bytes(out, behind, command.bytes);
    print_string(out, end, b"\"\n")
}

// Prints the line of a log for the digits behind the word of a kind, or R17; tells the place behind it.
fn export_digits(kind: Kind, digits: &[u8], out: &mut [u8], at: usize) -> usize
    requires { at + room ≤ length out.old }
    ensures { Prints (csim_line (export_in kind (frame_of digits.now))) result out.old at out.new }
{
    let mut frame = [0u8; Line::FRAME];
    match read_asked(kind, digits, &mut frame) {
        Some(command) => print_csim(command, out, at),
        None => print_refusal(out, at, Refusal::NoRecord),
    }
}

// Prints the line of a +CSIM log that a line of ours asks for, or R17; tells the place behind it.
pub fn tell_export(line: &[u8], out: &mut [u8], at: usize) -> usize
    requires { at + room ≤ length out.old }
    ensures { Prints (export_line line.now) result out.old at out.new }
{
    if Line::DIGITS < line.len() {
        return print_refusal(out, at, Refusal::NoRecord);
    }
    match kind_of_line(line) {
        Some(kind) => export_digits(kind, &line[kind.lead().len()..], out, at),
        None => print_refusal(out, at, Refusal::NoRecord),
    }
}
