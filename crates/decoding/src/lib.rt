// The decoding of one string into a lent buffer.
#![tactic(auto)]

ghost use Rattle.std.specs.Prelude.{◌≡◌, ◌++◌, false, ◌≤◌, length, drop};
ghost use Rattle.strings.specs.Strings.{decoded_from};
ghost use Rattle.decoding.specs.Decode.{decode_from, decode_of, decoded, Decoding};

use records::Outcome;

// What a decoding answers: the outcome, and how many bytes of the buffer it wrote.
#[repr(C)]
#[derive(Clone, Copy)]
pub struct Decoded {
    pub outcome: u32,
    pub length: usize,
}

// A success is the outcome 0 with the length, and a refusal says length 0.
impl From<Result<usize, Outcome>> for Decoded {
    ghost from_gives = { λ r d. d ≡ decoded r };

    fn from(r: Result<usize, Outcome>) -> Decoded {
        match r {
            Ok(length) => Decoded {
                outcome: Outcome::Ended as u32,
                length,
            },
            Err(outcome) => Decoded {
                outcome: outcome as u32,
                length: 0,
            },
        }
    }
}

// Writes the decoded bytes of a string from the front of the buffer.
fn write(s: &[u8], from: usize, buffer: &mut [u8])
    requires { length (decoded_from (drop from s.now) false) ≤ length buffer.old }
    ensures { buffer.new ≡ decoded_from (drop from s.now) false
        ++ drop (length (decoded_from (drop from s.now) false)) buffer.old }
{
    let mut n = 0;
    let mut escaped = false;
    for &b in s.get(from..).unwrap_or(&[]) {
        if escaped {
            buffer[n] = strings::unescape_sequence(b).unwrap_or(0);
            n += 1;
            escaped = false;
        } else if b == b'"' {
            return;
        } else if b == b'\\' {
            escaped = true;
        } else {
            buffer[n] = b;
            n += 1;
        }
    }
}

// Decodes the string whose opening quote stands at start. A refusal writes nothing.
pub fn decode(source: &[u8], start: usize, buffer: &mut [u8]) -> Decoded
    ensures { Decoding (decode_of source.now start (length buffer.old)) result buffer.old buffer.new }
{
    Decoded::from(try_decode(source, start, buffer))
}

// The same, as the length or the refusal's outcome.
#[tactic(auto, unfolding(crate::specs::Decode::decode_of))]
fn try_decode(source: &[u8], start: usize, buffer: &mut [u8]) -> Result<usize, Outcome>
    ensures { Decoding (decode_of source.now start (length buffer.old)) (decoded result) buffer.old buffer.new }
{
    if source.len() > 65535 {
        return Err(Outcome::TooLong);
    }
    if !text::is_text(source) {
        return Err(Outcome::NotText);
    }
    if source.get(start) != Some(&b'"') {
        return Err(Outcome::NotAString);
    }
    decode_from(source, start + 1, buffer)
}

// Decodes a string from the byte after its opening quote.
#[tactic(auto, using(strings::proofs::Sizes::decoded_length))]
fn decode_from(s: &[u8], from: usize, buffer: &mut [u8]) -> Result<usize, Outcome>
    ensures { Decoding (decode_from (drop from s.now) (length buffer.old)) (decoded result) buffer.old buffer.new }
{
    let closed = strings::string(s, from).map_err(|_| Outcome::NotAString)?;
    if buffer.len() < closed.length {
        return Err(Outcome::NoBufferRoom);
    }
    write(s, from, buffer);
    Ok(closed.length)
}
