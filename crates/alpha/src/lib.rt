// Alpha identifiers: the text of object 05 read into 16-bit units and written from them, as two calls and as two line tools.
#![tactic(auto)]

ghost use Rattle.std.specs.Prelude.{◌≡◌, true, false, [], ◌∷◌, ◌++◌, map, ◌+◌, ◌-◌, ◌*◌, ◌≤◌, ◌<◌, min, max, length, eqb, ◌&&◌, IfSome};
ghost use Rattle.std.proofs.Math.Option.{some};
ghost use Rattle.rules.specs.Checks.{every, same};
ghost use Rattle.octets.specs.Parts.{pasted, overlaid};
ghost use Rattle.text.specs.Frames.{readable, frame_bytes};
ghost use Rattle.rules.specs.Command.{wrote};
ghost use Rattle.rules.specs.Lines.{is_digit, digit_value};
ghost use Rattle.text.specs.Prints.{line_of, Prints};
ghost use Rattle.alpha.specs.Alphabet.{table, unit_of, extension_unit, code_of, extension_code_of};
ghost use Rattle.alpha.specs.Reads.{units, padding, pairs, block_mark, base_mark, based_unit, based_from, based, default_from, reads};
ghost use Rattle.alpha.specs.Writes.{default_coding, pair_coding, block_serves, block_with, base_serves, base_with, serves, based_byte, based_bytes, pair_bytes, writes};
ghost use Rattle.alpha.specs.Calls.{fitted, laid, ended_of, leaves};
ghost use Rattle.alpha.specs.Printed.{dashes, unit_text, further_text, text_line, units_from, units_of, alpha_read_line, alpha_write_line};
ghost use Rattle.alpha.specs.Bodies.{pair_unit, text_told};
ghost use Rattle.alpha.specs.Passes.{is_there, size_of, units_in, well, Fills, is_plain, ended, Splits, told, length_cap, survey_none, survey_step, survey_from, first_form, block_told, chosen, bytes_of, CodedBy, Serves, Ends, room, digits_at, is_word, unit_at, size_told};

use octets;
use rules::Refusal;
use std::marker::Model;
use text::{answer, digit_value, is_digit, print, print_bytes, print_char, print_refusal};

// The numbers of the codings.
#[derive(Drop)]
pub struct Coded {}

impl Coded {
    // How many codes the base table has, as a byte and as a unit too, its highest unit, and the code behind which one of the extension table stands.
    pub const CODES: usize = 128;

    pub const LIMIT: u8 = 0x80;

    pub const OWN: u16 = 0x80;

    pub const LAST: u16 = 0x03A9;

    pub const ESCAPE: u8 = 0x1B;

    // The padding of annex A, and the marks of its codings.
    pub const PADDING: u8 = 0xFF;

    pub const PAIRS: u8 = 0x80;

    pub const BLOCK: u8 = 0x81;

    pub const BASE: u8 = 0x82;

    // The bytes before those of the units in 81 and in 82.
    pub const BLOCK_HEAD: usize = 3;

    pub const BASE_HEAD: usize = 4;

    // The units of a block, the blocks that 81 can name, and the most units that its count tells.
    pub const SPAN: u16 = 128;

    pub const BLOCKS: u16 = 256;

    pub const COUNT: usize = 255;

    // The greatest unit.
    pub const TOP: usize = 0xFFFF;
}

// The numbers of a line of units: the most characters and units of one, the most bytes that code them, and the characters of a unit and of one with the blank behind it.
#[derive(Drop)]
pub struct Units {}

impl Units {
    pub const LINE: usize = 7999;

    pub const MOST: usize = 1600;

    pub const BYTES: usize = 3201;

    pub const DIGITS: usize = 4;

    pub const STEP: usize = 5;
}

// The unit of each code of the base table; at the escape's place stands that of code 00.
static TABLE: [u16; Coded::CODES] = [
    0x0040, 0x00A3, 0x0024, 0x00A5, 0x00E8, 0x00E9, 0x00F9, 0x00EC, 0x00F2, 0x00C7, 0x000A, 0x00D8,
    0x00F8, 0x000D, 0x00C5, 0x00E5, 0x0394, 0x005F, 0x03A6, 0x0393, 0x039B, 0x03A9, 0x03A0, 0x03A8,
    0x03A3, 0x0398, 0x039E, 0x0040, 0x00C6, 0x00E6, 0x00DF, 0x00C9, 0x0020, 0x0021, 0x0022, 0x0023,
    0x00A4, 0x0025, 0x0026, 0x0027, 0x0028, 0x0029, 0x002A, 0x002B, 0x002C, 0x002D, 0x002E, 0x002F,
    0x0030, 0x0031, 0x0032, 0x0033, 0x0034, 0x0035, 0x0036, 0x0037, 0x0038, 0x0039, 0x003A, 0x003B,
    0x003C, 0x003D, 0x003E, 0x003F, 0x00A1, 0x0041, 0x0042, 0x0043, 0x0044, 0x0045, 0x0046, 0x0047,
    0x0048, 0x0049, 0x004A, 0x004B, 0x004C, 0x004D, 0x004E, 0x004F, 0x0050, 0x0051, 0x0052, 0x0053,
    0x0054, 0x0055, 0x0056, 0x0057, 0x0058, 0x0059, 0x005A, 0x00C4, 0x00D6, 0x00D1, 0x00DC, 0x00A7,
    0x00BF, 0x0061, 0x0062, 0x0063, 0x0064, 0x0065, 0x0066, 0x0067, 0x0068, 0x0069, 0x006A, 0x006B,
    0x006C, 0x006D, 0x006E, 0x006F, 0x0070, 0x0071, 0x0072, 0x0073, 0x0074, 0x0075, 0x0076, 0x0077,
    0x0078, 0x0079, 0x007A, 0x00E4, 0x00F6, 0x00F1, 0x00FC, 0x00E0,
];

// A coding of units: the default alphabet with so many extension characters, pairs, a block, or a base.
#[derive(Clone, Copy)]
pub enum Coding {
    Default(usize),
    Pairs,
    Block(u8),
    Base(u16),
}

// What the choice of a coding looks at: how many units are extension characters, if every unit has a code, and the lowest and the highest that have no code of the base table.
#[derive(Clone, Copy)]
pub struct Survey {
    pub extras: Option<usize>,
    pub lowest: u16,
    pub highest: u16,
}

// The unit of a code of the extension table.
// Kept: written into its callers, since the count of a text then needs no unit: a hundred escapes are read in 4435 instructions, and in 6347 by calls.
#[inline(always)]
fn extension(code: u8) -> Option<u16>
    ensures { result ≡ told (extension_unit code) }
{
    match code {
        0x0A => Some(0x000C),
        0x14 => Some(0x005E),
        0x28 => Some(0x007B),
        0x29 => Some(0x007D),
        0x2F => Some(0x005C),
        0x3C => Some(0x005B),
        0x3D => Some(0x007E),
        0x3E => Some(0x005D),
        0x40 => Some(0x007C),
        0x65 => Some(0x20AC),
        _ => None,
    }
}

// The code of a unit in the extension table.
fn extension_code(unit: u16) -> Option<u8>
    ensures { result ≡ told (extension_code_of unit) }
{
    match unit {
        0x000C => Some(0x0A),
        0x005E => Some(0x14),
        0x007B => Some(0x28),
        0x007D => Some(0x29),
        0x005C => Some(0x2F),
        0x005B => Some(0x3C),
        0x007E => Some(0x3D),
        0x005D => Some(0x3E),
        0x007C => Some(0x40),
        0x20AC => Some(0x65),
        _ => None,
    }
}

// The code of a unit in the base table, code by code.
fn look_up(unit: u16) -> Option<u8>
    ensures { result ≡ told (code_of unit) }
{
    TABLE
        .iter()
        .position(|own| *own == unit)
        .map(|code| code as u8)
}

// The code of a unit in the base table: none has one above the last, and most below 80 are their own.
fn code_of(unit: u16) -> Option<u8>
    ensures { result ≡ told (code_of unit) }
{
    if Coded::LAST < unit {
        return None;
    }
    if unit < Coded::OWN && TABLE[usize::from(unit)] == unit {
        return Some(unit as u8);
    }
    look_up(unit)
}

// Whether a byte is a code of the base table.
fn is_plain_code(b: u8) -> bool
    ensures { result ≡ is_plain b }
{
    (b < Coded::LIMIT) & (b != Coded::ESCAPE)
}

// Whether every byte is a code of the base table; no test in the fold leaves it, so that it goes many bytes at a time.
fn is_plain(s: &[u8]) -> bool
    ensures { result ≡ every is_plain s.now }
{
    s.iter().fold(true, |plain, b| plain & is_plain_code(*b))
}

// The first unit of a text of the default alphabet and the bytes behind it; none where the text has ended or is malformed there.
// Kept: written into its callers, since what a call tells goes through memory: 199 letters and one FF are read in 5422 instructions, and in 11032 by calls.
#[inline(always)]
fn split_unit(s: &[u8]) -> Option<(u16, &[u8])>
    ensures { Splits s.now result }
{
    let (first, behind) = s.split_first()?;
    if *first == Coded::ESCAPE {
        let (code, behind) = behind.split_first()?;
        return Some((extension(*code)?, behind));
    }
    if !is_plain_code(*first) {
        return None;
    }
    Some((TABLE[usize::from(*first)], behind))
}

// Whether a text of the default alphabet ends here: no byte is left, or FF stands first.
fn has_ended(s: &[u8]) -> bool
    ensures { result ≡ ended s.now }
{
    match s {
        [] => true,
        [b, ..] => *b == Coded::PADDING,
    }
}

// How many units a text of the default alphabet has, unit by unit; none where it is malformed.
fn count_escaped(s: &[u8]) -> Option<usize>
    ensures { result ≡ size_of (default_from false s.now) }
{
    let mut n: usize = 0;
    let mut rest = s;
    while let Some((_, behind)) = split_unit(rest) {
        n += 1;
        rest = behind;
    }
    has_ended(rest).then_some(n)
}

// Whether every byte is padding.
fn is_padding(s: &[u8]) -> bool
    ensures { result ≡ every (eqb padding) s.now }
{
    s.iter().all(|b| *b == Coded::PADDING)
}

// The unit of a byte of 81 or 82, if it has one.
// Kept: the sum as a usize, since `checked_add` makes the test longer: 200 high bytes of 82 are read in 4280 instructions, and in 4676 by it.
fn based_unit(pointer: u16, b: u8) -> Option<u16>
    ensures { result ≡ told (based_unit pointer b) }
{
    if b == Coded::ESCAPE {
        return None;
    }
    if b < Coded::LIMIT {
        return Some(TABLE[usize::from(b)]);
    }
    u16::try_from(usize::from(pointer) + usize::from(b - Coded::LIMIT)).ok()
}

// The unit of a byte of 81 or 82 that has one.
// Kept: apart from `based_unit`, whose tests have been made: 200 bytes of 81 are read in 3081 instructions, and in 3682 with them.
fn checked_unit(pointer: u16, b: u8) -> u16
    requires { is_there (based_unit pointer b) ≡ true }
    ensures { based_unit pointer b ≡ some result }
{
    if b < Coded::LIMIT {
        return TABLE[usize::from(b)];
    }
    pointer + u16::from(b - Coded::LIMIT)
}

// Whether every byte of 81 or 82 has a unit.
fn are_based(pointer: u16, s: &[u8]) -> bool
    ensures { result ≡ well (based_from pointer s.now) }
{
    s.iter().all(|b| based_unit(pointer, *b).is_some())
}

// Writes the units of plain codes to the front of `out`.
fn fill_plain(s: &[u8], out: &mut [u16])
    requires { (every is_plain s.now ≡ true) × (length s.now ≤ length out.old) }
    ensures { out.new ≡ overlaid (map unit_of s.now) out.old }
{
    for (i, b) in s.iter().enumerate() {
        out[i] = TABLE[usize::from(*b)];
    }
}

// Writes the units of a text of the default alphabet, unit by unit, to the front of `out`.
fn fill_escaped(s: &[u8], out: &mut [u16])
    requires { Fills (default_from false s.now) out.old }
    ensures { out.new ≡ overlaid (units_in (default_from false s.now)) out.old }
{
    let mut n: usize = 0;
    let mut rest = s;
    while let Some((unit, behind)) = split_unit(rest) {
        out[n] = unit;
        n += 1;
        rest = behind;
    }
}

// Writes the units of pairs to the front of `out`.
fn fill_pairs(pairs: &[[u8; 2]], out: &mut [u16])
    requires { length pairs.now ≤ length out.old }
    ensures { out.new ≡ overlaid (map pair_unit pairs.now) out.old }
{
    for (i, pair) in pairs.iter().enumerate() {
        out[i] = u16::from_be_bytes(*pair);
    }
}

// Writes the units of bytes of 81 or 82 to the front of `out`.
fn fill_based(pointer: u16, s: &[u8], out: &mut [u16])
    requires { Fills (based_from pointer s.now) out.old }
    ensures { out.new ≡ overlaid (units_in (based_from pointer s.now)) out.old }
{
    for (i, b) in s.iter().enumerate() {
        out[i] = checked_unit(pointer, *b);
    }
}

// What stands behind the head of an alpha identifier: codes of the base table, the default alphabet with so many units, pairs, or bytes of 81 or 82 with their pointer.
#[derive(Clone, Copy)]
enum Body<'a> {
    Plain(&'a [u8]),
    Escaped(&'a [u8], usize),
    Pairs(&'a [[u8; 2]]),
    Based(u16, &'a [u8]),
}

// An alpha identifier that is well formed; contracts see it as its units.
#[derive(Drop)]
struct Identifier<'a> {
    body: Body<'a>,
}

impl<'a> Model for Identifier<'a> {
    ghost use Rattle.std.specs.Prelude.{List, ℕ};
    ghost use Rattle.alpha.specs.Bodies.{units_behind, IsBody};

    ghost Value = { List ℕ };

    ghost view = { λ i. units_behind i.body };

    ghost invariant = { λ i. IsBody i.body };
}

impl<'a> Identifier<'a> {
    // A value as an identifier; none where it is malformed.
    fn read(value: &'a [u8]) -> Option<Self>
        ensures { result ≡ text_told (reads value.now) }
    {
        let Some((mark, behind)) = value.split_first() else {
            return Self::in_default(value);
        };
        match *mark {
            Coded::PAIRS => Self::in_pairs(behind),
            Coded::BLOCK => Self::in_block(behind),
            Coded::BASE => Self::with_base(behind),
            _ => Self::in_default(value),
        }
    }

    // A text of the default alphabet.
    fn in_default(s: &'a [u8]) -> Option<Self>
        ensures { result ≡ text_told (default_from false s.now) }
    {
        if is_plain(s) {
            return Some(Identifier {
                body: Body::Plain(s),
            });
        }
        let count = count_escaped(s)?;
        Some(Identifier {
            body: Body::Escaped(s, count),
        })
    }

    // Pairs of bytes; an odd byte over is padding.
    fn in_pairs(s: &'a [u8]) -> Option<Self>
        ensures { result ≡ text_told (pairs s.now) }
    {
        let (pairs, over) = s.as_chunks();
        if !is_padding(over) {
            return None;
        }
        Some(Identifier {
            body: Body::Pairs(pairs),
        })
    }

    // What stands behind the mark 81: a count, the byte that names a block, and the bytes.
    fn in_block(s: &'a [u8]) -> Option<Self>
        ensures { result ≡ text_told (reads (block_mark ∷ s.now)) }
    {
        let [count, block, behind @ ..] = s else {
            return None;
        };
        Self::based(*count, block_pointer(*block), behind)
    }

    // What stands behind the mark 82: a count, the two bytes of a base, and the bytes.
    fn with_base(s: &'a [u8]) -> Option<Self>
        ensures { result ≡ text_told (reads (base_mark ∷ s.now)) }
    {
        let [count, high, low, behind @ ..] = s else {
            return None;
        };
        Self::based(*count, u16::from_be_bytes([*high, *low]), behind)
    }

    // As many bytes of 81 or 82 as the count says, and padding behind them.
    fn based(count: u8, pointer: u16, s: &'a [u8]) -> Option<Self>
        ensures { result ≡ text_told (based count pointer s.now) }
    {
        let (coded, over) = s.split_at_checked(usize::from(count))?;
        if !is_padding(over) || !are_based(pointer, coded) {
            return None;
        }
        Some(Identifier {
            body: Body::Based(pointer, coded),
        })
    }

    // How many units it has.
    fn len(&self) -> usize
        ensures { result ≡ length self.now }
    {
        match self.body {
            Body::Plain(s) => s.len(),
            Body::Escaped(_, count) => count,
            Body::Pairs(pairs) => pairs.len(),
            Body::Based(_, s) => s.len(),
        }
    }

    // Writes its units to the front of `out`.
    fn fill(&self, out: &mut [u16])
        requires { length self.now ≤ length out.old }
        ensures { out.new ≡ overlaid self.now out.old }
    {
        match self.body {
            Body::Plain(s) => fill_plain(s, out),
            Body::Escaped(s, _) => fill_escaped(s, out),
            Body::Pairs(pairs) => fill_pairs(pairs, out),
            Body::Based(pointer, s) => fill_based(pointer, s, out),
        }
    }
}

// Where a block begins, by the byte that names it: bits 15 to 8 of a pointer whose top bit is 0.
fn block_pointer(block: u8) -> u16
    ensures { result ≡ 128 * block }
{
    Coded::SPAN * u16::from(block)
}

// Reads an alpha identifier: its units go to the front of `out`. R13 where it is malformed, then R14 where it has more units than `out`; a refusal writes nothing.
pub fn read(value: &[u8], out: &mut [u16]) -> Result<usize, Refusal>
    ensures value { result ≡ ended_of (reads value.now) (length out.old) }
    ensures out_after { out.new ≡ leaves (reads value.now) out.old }
{
    let Some(identifier) = Identifier::read(value) else {
        return Err(Refusal::Malformed);
    };
    let n = identifier.len();
    if out.len() < n {
        return Err(Refusal::ShortText);
    }
    identifier.fill(out);
    Ok(n)
}

impl Survey {
    // The survey of no units.
    pub const NONE: Survey = Survey {
        extras: Some(0),
        lowest: 0xFFFF,
        highest: 0,
    };

    // The survey of units.
    fn of(units: &[u16]) -> Self
        ensures { result ≡ survey_from survey_none units.now }
    {
        let mut s = Survey::NONE;
        for unit in units {
            s = s.behind(*unit);
        }
        s
    }

    // The survey behind a unit.
    fn behind(self, unit: u16) -> Self
        requires { IfSome self.extras (λ n. n < length_cap) }
        ensures { result ≡ survey_step self unit }
    {
        if code_of(unit).is_some() {
            return self;
        }
        Survey {
            extras: extension_code(unit).and(self.extras).map(|n| n + 1),
            lowest: self.lowest.min(unit),
            highest: self.highest.max(unit),
        }
    }

    // The default alphabet where it serves, else pairs.
    fn first_form(self) -> Coding
        ensures { result ≡ first_form self }
    {
        self.extras.map_or(Coding::Pairs, Coding::Default)
    }

    // The block in which the units that need one lie, if it can be named.
    fn block(self) -> Option<u8>
        ensures { result ≡ block_told self }
    {
        let block = self.lowest / Coded::SPAN;
        if self.highest / Coded::SPAN != block {
            return None;
        }
        u8::try_from(block).ok()
    }

    // The coding of n units: the shortest, on a tie the first.
    fn choose(self, n: usize) -> Coding
        ensures { result ≡ chosen self n }
    {
        let first = self.first_form();
        if Coded::COUNT < n {
            return first;
        }
        let over = self.extras.unwrap_or(n + 1);
        if over <= Coded::BLOCK_HEAD {
            return first;
        }
        if let Some(block) = self.block() {
            return Coding::Block(block);
        }
        if over <= Coded::BASE_HEAD {
            return first;
        }
        let base = self.highest.saturating_sub(Coded::SPAN - 1);
        if base <= self.lowest {
            return Coding::Base(base);
        }
        first
    }
}

impl Coding {
    // Writes units in the coding to the front of `out`. R14 where they have more bytes than `out`, which is then as it was.
    fn put(self, units: &[u16], out: &mut [u8]) -> Result<usize, Refusal>
        requires { Serves self units.now }
        ensures { Ends (bytes_of self units.now) result out.old out.new }
    {
        match self {
            Coding::Default(extras) => put_default(extras, units, out),
            Coding::Pairs => put_pairs(units, out),
            Coding::Block(block) => put_block(block, units, out),
            Coding::Base(base) => put_base(base, units, out),
        }
    }
}

// Writes units in the default alphabet to the front of `out`.
fn write_default(units: &[u16], out: &mut [u8])
    requires { (readable (default_coding units.now) ≡ true) × (length (frame_bytes (default_coding units.now)) ≤ length out.old) }
    ensures { out.new ≡ overlaid (frame_bytes (default_coding units.now)) out.old }
{
    let mut n: usize = 0;
    for unit in units {
        match code_of(*unit) {
            Some(code) => {
                out[n] = code;
                n += 1;
            }
            None => {
                let code = extension_code(*unit).unwrap();
                out[n] = Coded::ESCAPE;
                out[n + 1] = code;
                n += 2;
            }
        }
    }
}

// The default alphabet, with so many extension characters.
fn put_default(extras: usize, units: &[u16], out: &mut [u8]) -> Result<usize, Refusal>
    requires { CodedBy extras units.now }
    ensures { Ends (frame_bytes (default_coding units.now)) result out.old out.new }
{
    let room = out.len();
    if room < extras || room - extras < units.len() {
        return Err(Refusal::ShortText);
    }
    write_default(units, out);
    Ok(extras + units.len())
}

// Writes a pair for each unit behind the mark.
fn write_pairs(units: &[u16], out: &mut [u8])
    requires { 1 + 2 * length units.now ≤ length out.old }
    ensures { out.new ≡ pasted out.old 1 (pair_bytes units.now) }
{
    for (i, unit) in units.iter().enumerate() {
        let [high, low] = unit.to_be_bytes();
        out[2 * i + 1] = high;
        out[2 * i + 2] = low;
    }
}

// Pairs behind their mark.
fn put_pairs(units: &[u16], out: &mut [u8]) -> Result<usize, Refusal>
    ensures { Ends (pair_coding units.now) result out.old out.new }
{
    let room = out.len();
    if room == 0 || (room - 1) / 2 < units.len() {
        return Err(Refusal::ShortText);
    }
    out[0] = Coded::PAIRS;
    write_pairs(units, out);
    Ok(1 + 2 * units.len())
}

// The byte of a unit in 81 or 82.
fn based_byte(pointer: u16, unit: u16) -> u8
    requires { serves pointer (unit ∷ []) ≡ true }
    ensures { result ≡ based_byte pointer unit (code_of unit) }
{
    match code_of(unit) {
        Some(code) => code,
        None => Coded::LIMIT + (unit - pointer) as u8,
    }
}

// Writes the bytes of units in 81 or 82 from `at` on.
fn write_based(pointer: u16, units: &[u16], out: &mut [u8], at: usize)
    requires { (serves pointer units.now ≡ true) × (at + length units.now ≤ length out.old) }
    ensures { out.new ≡ pasted out.old at (based_bytes pointer units.now) }
{
    for (i, unit) in units.iter().enumerate() {
        out[at + i] = based_byte(pointer, *unit);
    }
}

// A head, and behind it the bytes of units in 81 or 82.
fn put_based(head: &[u8], pointer: u16, units: &[u16], out: &mut [u8]) -> Result<usize, Refusal>
    requires { (serves pointer units.now ≡ true) × (length head.now ≤ 4) × (length units.now ≤ 255) }
    ensures { Ends (head.now ++ based_bytes pointer units.now) result out.old out.new }
{
    let size = head.len() + units.len();
    if out.len() < size {
        return Err(Refusal::ShortText);
    }
    octets::put(out, 0, head);
    write_based(pointer, units, out, head.len());
    Ok(size)
}

// 81 with a block.
fn put_block(block: u8, units: &[u16], out: &mut [u8]) -> Result<usize, Refusal>
    requires { block_serves block units.now ≡ true }
    ensures { Ends (block_with block units.now) result out.old out.new }
{
    let head = [Coded::BLOCK, units.len() as u8, block];
    put_based(&head, block_pointer(block), units, out)
}

// 82 with a base.
fn put_base(base: u16, units: &[u16], out: &mut [u8]) -> Result<usize, Refusal>
    requires { base_serves base units.now ≡ true }
    ensures { Ends (base_with base units.now) result out.old out.new }
{
    let [high, low] = base.to_be_bytes();
    let head = [Coded::BASE, units.len() as u8, high, low];
    put_based(&head, base, units, out)
}

// Writes units as an alpha identifier, in the shortest coding, to the front of `out`. R14 where it has more bytes than `out`, which is then as it was.
pub fn write(units: &[u16], out: &mut [u8]) -> Result<usize, Refusal>
    ensures value { result ≡ fitted (writes units.now) (length out.old) }
    ensures out_after { out.new ≡ laid (writes units.now) out.old }
{
    Survey::of(units).choose(units.len()).put(units, out)
}

// Prints the four digits of a unit, and tells the place behind them.
fn print_unit(out: &mut [u8], at: usize, unit: u16) -> usize
    requires { at + 4 ≤ length out.old }
    ensures { Prints (unit_text unit) result out.old at out.new }
{
    print_bytes(out, at, &unit.to_be_bytes())
}

// Prints units, a blank in front of each, and tells the place behind them.
fn print_further(out: &mut [u8], at: usize, units: &[u16]) -> usize
    requires { at + 5 * length units.now ≤ length out.old }
    ensures { Prints (further_text units.now) result out.old at out.new }
{
    let mut end = at;
    for unit in units {
        let start = print_char(out, end, b' ');
        end = print_unit(out, start, *unit);
    }
    end
}

// Prints the line of a text, and tells the place behind it.
fn print_units(out: &mut [u8], at: usize, text: &[u16]) -> usize
    requires { (length text.now ≤ 1600) × (at + room ≤ length out.old) }
    ensures { Prints (text_line (units text.now)) result out.old at out.new }
{
    let Some((first, further)) = text.split_first() else {
        return print(out, at, Ok(0), b"");
    };
    let start = print_unit(out, at, *first);
    let end = print_further(out, start, further);
    print_char(out, end, b'\n')
}

// Prints the units of a value, or R13.
fn print_text(value: &[u8], out: &mut [u8], at: usize) -> usize
    requires { (length value.now ≤ 1600) × (at + room ≤ length out.old) }
    ensures { Prints (text_line (reads value.now)) result out.old at out.new }
{
    let mut units = [0u16; Units::MOST];
    match read(value, &mut units) {
        Ok(n) => print_units(out, at, &units[..n]),
        Err(refusal) => print_refusal(out, at, refusal),
    }
}

// Prints the units of a value in hex, R13 where it is malformed, R9 where the line is unreadable; tells the place behind them.
pub fn tell_alpha_read(line: &[u8], out: &mut [u8], at: usize) -> usize
    requires { at + room ≤ length out.old }
    ensures { Prints (alpha_read_line line.now) result out.old at out.new }
{
    answer(print_text, line, out, at)
}

// Whether characters are four digits.
fn are_digits(word: &[u8]) -> bool
    ensures { result ≡ is_word word.now }
{
    word.len() == Units::DIGITS && word.iter().all(|c| is_digit(*c))
}

// The value of a digit, as wide as a unit.
fn wide_digit(c: u8) -> u16
    requires { is_digit c ≡ true }
    ensures { (result ≡ digit_value c) × (result ≤ 15) }
{
    u16::from(digit_value(c))
}

// The unit of four digits at a place.
fn unit_at(line: &[u8], at: usize) -> u16
    requires { (at + 4 ≤ length line.now) × (digits_at line.now at ≡ true) }
    ensures { result ≡ unit_at line.now at }
{
    let a = wide_digit(line[at]);
    let b = wide_digit(line[at + 1]);
    let c = wide_digit(line[at + 2]);
    let d = wide_digit(line[at + 3]);
    4096 * a + 256 * b + 16 * c + d
}

// Whether a line is units of four digits with a blank between.
fn are_units(line: &[u8]) -> bool
    ensures { result ≡ readable (units_from line.now) }
{
    line.split(|c| *c == b' ').all(are_digits)
}

// Writes the units of a line to the front of `out`.
fn fill_units(line: &[u8], out: &mut [u16])
    requires { (length line.now ≤ 7999) × (readable (units_from line.now) ≡ true) × (length (frame_bytes (units_from line.now)) ≤ length out.old) }
    ensures { out.new ≡ overlaid (frame_bytes (units_from line.now)) out.old }
{
    let n = (line.len() + 1) / Units::STEP;
    for i in 0..n {
        out[i] = unit_at(line, Units::STEP * i);
    }
}

// Reads a line of units, which go to the front of `out`; an unreadable line writes nothing.
fn read_units(line: &[u8], out: &mut [u16]) -> Option<usize>
    requires { 1600 ≤ length out.old }
    ensures value { result ≡ size_told (units_of line.now) }
    ensures out_after { out.new ≡ overlaid (frame_bytes (units_of line.now)) out.old }
{
    if line.is_empty() || line == b"--".as_slice() {
        return Some(0);
    }
    if Units::LINE < line.len() || !are_units(line) {
        return None;
    }
    fill_units(line, out);
    Some((line.len() + 1) / Units::STEP)
}

// Prints the bytes of units.
fn print_coded(units: &[u16], out: &mut [u8], at: usize) -> usize
    requires { (length units.now ≤ 1600) × (at + room ≤ length out.old) }
    ensures { Prints (line_of (wrote (writes units.now))) result out.old at out.new }
{
    // Kept: before the array is made, which is cleared: a blank line takes 3320 instructions, and 6550 behind it.
    if units.is_empty() {
        return print(out, at, Ok(0), b"");
    }
    let mut bytes = [0u8; Units::BYTES];
    let ended = write(units, &mut bytes);
    print(out, at, ended, &bytes)
}

// Prints the bytes that code a line of units, R9 where the line is unreadable; tells the place behind them.
pub fn tell_alpha_write(line: &[u8], out: &mut [u8], at: usize) -> usize
    requires { at + room ≤ length out.old }
    ensures { Prints (alpha_write_line line.now) result out.old at out.new }
{
    let mut units = [0u16; Units::MOST];
    let Some(n) = read_units(line, &mut units) else {
        return print_refusal(out, at, Refusal::Unreadable);
    };
    print_coded(&units[..n], out, at)
}
