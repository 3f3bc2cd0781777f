// Objects at places of a byte slice: one object, the walk to the first fault or the end, and writing a tag and a length.
#![tactic(auto)]

ghost use Rattle.std.specs.Prelude.{◌≡◌, ◌∷◌, ◌+◌, ◌≤◌, length};
ghost use Rattle.octets.specs.Parts.{pasted};
ghost use Rattle.rules.specs.Frames.{length_bytes, walk};
ghost use Rattle.objects.specs.Places.{LongTags, Tags, Measures, Meets};

use octets;
use rules::Ending;

// A tag at a place: its number, its flag, and where its length stands.
#[derive(Clone, Copy)]
pub struct Tag {
    pub number: u16,
    pub flagged: bool,
    pub sized: usize,
}

// A length at a place: how many bytes it counts, and where they start.
#[derive(Clone, Copy)]
pub struct Length {
    pub count: usize,
    pub start: usize,
}

// A place between two objects.
#[derive(Clone, Copy)]
pub struct Cursor {
    pub at: usize,
}

// An object at a cursor: its number, its flag, where its value starts, how long it is, and the cursor behind it.
#[derive(Clone, Copy)]
pub struct Object {
    pub number: u16,
    pub flagged: bool,
    pub start: usize,
    pub len: usize,
    pub next: Cursor,
}

// Where a walk stopped, and how.
#[derive(Clone, Copy)]
pub struct Stop {
    pub ending: Ending,
    pub at: usize,
}

// The first byte of a tag of three.
const LONG_TAG: u8 = 0x7F;

// The byte before a length of 80 to FF.
const LONGER_FORM: u8 = 0x81;

// The two bytes at `at`, behind a 7F: the top bit of the first is the flag, its other seven bits and the second the number, which is not 0.
fn long_tag_at(s: &[u8], at: usize) -> Option<Tag>
    ensures { LongTags result s.now at }
{
    let high = *s.get(at)?;
    let low = *s.get(at + 1)?;
    let number = u16::from_be_bytes([high % 0x80, low]);
    if number == 0 {
        return None;
    }
    Some(Tag {
        number,
        flagged: 0x80 <= high,
        sized: at + 2,
    })
}

// The tag at `at`: three bytes from 7F on, else one, whose top bit is the flag and whose low seven bits are the number, which is not 0 or 127.
pub fn tag_at(s: &[u8], at: usize) -> Option<Tag>
    ensures { Tags result s.now at }
{
    let byte = *s.get(at)?;
    let number = byte % 0x80;
    match number {
        0 => None,
        LONG_TAG if byte == LONG_TAG => long_tag_at(s, at + 1),
        LONG_TAG => None,
        _ => Some(Tag {
            number: u16::from(number),
            flagged: 0x80 <= byte,
            sized: at + 1,
        }),
    }
}

// The length at `at`: one byte 00 to 7F, or 81 and a byte 80 to FF.
pub fn length_at(s: &[u8], at: usize) -> Option<Length>
    ensures { Measures result s.now at }
{
    let byte = *s.get(at)?;
    if byte < 0x80 {
        return Some(Length {
            count: usize::from(byte),
            start: at + 1,
        });
    }
    if byte != LONGER_FORM {
        return None;
    }
    let count = *s.get(at + 1)?;
    if count < 0x80 {
        return None;
    }
    Some(Length {
        count: usize::from(count),
        start: at + 2,
    })
}

// Writes the tag and the length of an object, in the shortest form, and tells the place behind them.
pub fn write_length(out: &mut [u8], at: usize, tag: u8, len: u8) -> usize
    requires { at + 3 ≤ length out.old }
    ensures out_after { out.new ≡ pasted out.old at (tag ∷ length_bytes len) }
    ensures value { result ≡ at + length (tag ∷ length_bytes len) }
{
    if len < 0x80 {
        let short = [tag, len];
        octets::put(out, at, &short);
        return at + 2;
    }
    let long = [tag, LONGER_FORM, len];
    octets::put(out, at, &long);
    at + 3
}

impl Cursor {
    // The object at the cursor: a tag, a length, a value that stands whole.
    pub fn object(self, s: &[u8]) -> Result<Object, Ending>
        ensures { Meets result s.now self.at }
    {
        let tag = tag_at(s, self.at).ok_or(Ending::BadTag)?;
        let length = length_at(s, tag.sized).ok_or(Ending::BadLength)?;
        if s.len() - length.start < length.count {
            return Err(Ending::CutValue);
        }
        Ok(Object {
            number: tag.number,
            flagged: tag.flagged,
            start: length.start,
            len: length.count,
            next: Cursor {
                at: length.start + length.count,
            },
        })
    }
}

// The walk over objects: it stops at the first fault, or at the end.
pub fn walk(s: &[u8]) -> Stop
    ensures ending_value { result.ending ≡ (walk s.now).ending }
    ensures s_value { result.at + length (walk s.now).rest ≡ length s.now }
{
    let mut c = Cursor { at: 0 };
    loop {
        let at = c.at;
        if s.len() <= at {
            return Stop {
                ending: Ending::End,
                at,
            };
        }
        match c.object(s) {
            Ok(object) => c = object.next,
            Err(ending) => return Stop { ending, at },
        }
    }
}
