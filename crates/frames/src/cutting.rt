// The frame writer: a hello cut into CRYPTO frames.
ghost use Rattle.std.specs.Prelude.{◌+◌, ◌≤◌, ◌≡◌, length};
ghost use Rattle.wire.specs.Front.{Put};
ghost use Rattle.frames.specs.Frame.{encode};
ghost use Rattle.frames.specs.Join.{limit};
ghost use Rattle.frames.specs.Cut.{short_frame, frames_of, Cuts};

use crate::joining::LIMIT;
use varint::{put_varint, varint_length};
use wire::Refusal;

// How many bytes the frame of some data takes. Here and in `put_frame` place and length are at most `limit`, and so have a varint: a type
// for such numbers would be taken apart at every sum and every index.
fn frame_length(offset: usize, bytes: &[u8]) -> usize
    requires { (offset ≤ limit) × (length bytes.now ≤ limit) }
    ensures { (result ≡ length (encode (short_frame (record { offset = offset; bytes = bytes.now })))) × (result ≤ 17 + length bytes.now) }
{
    1 + varint_length(offset as u64) + varint_length(bytes.len() as u64) + bytes.len()
}

// How many bytes all frames take. Each piece but the last has c bytes, so the number of a piece gives its place.
fn frames_length(c: usize, hello: &[u8]) -> usize
    requires { (1 ≤ c) × (c ≤ limit) × (length hello.now ≤ limit) }
    ensures { result ≡ length (frames_of c hello.now) }
{
    let mut n = 0;
    for (i, piece) in hello.chunks(c).enumerate() {
        n += frame_length(i * c, piece);
    }
    n
}

// Writes the frame of some data.
fn put_frame(out: &mut [u8], offset: usize, bytes: &[u8]) -> usize
    requires { (offset ≤ limit) × (length bytes.now ≤ limit) × (length (encode (short_frame (record { offset = offset; bytes = bytes.now }))) ≤ length out.old) }
    ensures { Put (encode (short_frame (record { offset = offset; bytes = bytes.now }))) result out.old out.new }
{
    out[0] = 0x06;
    let a = 1 + put_varint(&mut out[1..], offset as u64);
    let b = a + put_varint(&mut out[a..], bytes.len() as u64);
    b + wire::put_bytes(&mut out[b..], bytes)
}

// Writes all frames, each to the part of the output that starts where the last one stopped.
fn put_frames(out: &mut [u8], c: usize, hello: &[u8]) -> usize
    requires { (1 ≤ c) × (c ≤ limit) × (length hello.now ≤ limit) × (length (frames_of c hello.now) ≤ length out.old) }
    ensures { Put (frames_of c hello.now) result out.old out.new }
{
    let mut n = 0;
    for (i, piece) in hello.chunks(c).enumerate() {
        n += put_frame(&mut out[n..], i * c, piece);
    }
    n
}

// Cuts a hello into frames of c data bytes, the last perhaps shorter; later bytes of the output stay. Refusals leave all of it: 24 for
// a c that is not from 1 to 16,384, 25 for a hello of more than 16,384 bytes, 26 where the output does not hold all frames.
pub fn write_frames(c: u64, hello: &[u8], out: &mut [u8]) -> Result<usize, Refusal>
    ensures { Cuts c hello.now out.old result out.new }
{
    if c < 1 || (LIMIT as u64) < c {
        return Err(Refusal::FrameSize);
    }
    if LIMIT < hello.len() {
        return Err(Refusal::HelloTooLongToCut);
    }
    let size = c as usize;
    if out.len() < frames_length(size, hello) {
        return Err(Refusal::NoRoomForFrames);
    }
    Ok(put_frames(out, size, hello))
}
