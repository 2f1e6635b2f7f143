// One frame, read from the front of bytes.
ghost use Rattle.std.specs.Prelude.{◌≤◌, length};
ghost use Rattle.frames.specs.Read.{FrameFound, CryptoFound};

use wire::Refusal;

// A CRYPTO frame as it lies in the input: the place of its data in the stream, and in the input. No slice: a listing says where it ends.
#[derive(Clone, Copy, PartialEq, Eq, Debug)]
pub struct CryptoFrame {
    pub offset: u64,
    pub start: usize,
    pub end: usize,
}

#[derive(Clone, Copy, PartialEq, Eq, Debug)]
pub enum Frame {
    Padding,
    Ping,
    Crypto(CryptoFrame),
}

// Reads the frame at the front of the input; refusal 11 for an unknown type, 12 where bytes of the frame are missing.
pub fn read_frame(input: &[u8]) -> Result<Frame, Refusal>
    ensures { FrameFound input.now result }
{
    if input.is_empty() {
        return Err(Refusal::FrameCut);
    }
    // Numbers of RFC 9000, which are read here and nowhere else: an enum of the types would be made from them by the same lines.
    match input[0] {
        0x00 => Ok(Frame::Padding),
        0x01 => Ok(Frame::Ping),
        0x06 => Ok(Frame::Crypto(read_crypto(input)?)),
        _ => Err(Refusal::UnknownFrame),
    }
}

// The body of a CRYPTO frame, whose type stands at the input's front.
fn read_crypto(input: &[u8]) -> Result<CryptoFrame, Refusal>
    requires { 1 ≤ length input.now }
    ensures { CryptoFound input.now result }
{
    let Ok(offset) = varint::read(&input[1..]) else {
        return Err(Refusal::FrameCut);
    };
    let a = 1 + offset.width;
    let Ok(length) = varint::read(&input[a..]) else {
        return Err(Refusal::FrameCut);
    };
    let start = a + length.width;
    if ((input.len() - start) as u64) < length.value {
        return Err(Refusal::FrameCut);
    }
    let end = start + length.value as usize;
    Ok(CryptoFrame {
        offset: offset.value,
        start,
        end,
    })
}
