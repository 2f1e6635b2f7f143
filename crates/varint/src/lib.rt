// Variable-length integers of QUIC (varint.rs; RFC 9000, section 16): one, two, four or eight bytes. The two top bits of the first
// byte say how many, the rest is the value, highest byte first. Document 01, questions 1 to 3.
#![tactic(auto)]

ghost use Rattle.std.specs.Prelude.{◌≡◌, ◌%◌, ◌^◌, ◌≤◌, ◌<◌, length};
ghost use Rattle.wire.specs.Front.{front, Put};
ghost use Rattle.varint.specs.Varint.{width, ceiling, class, form, shortest, Sized, Written, Found};
ghost use Rattle.varint.specs.Code.{place, place_of};

use wire::{Refusal, put_be};

// What a read finds.
#[derive(Clone, Copy, PartialEq, Eq, Debug)]
pub struct Varint {
    pub value: u64,
    pub width: usize,
}

// A width of 1, 2, 4 or 8 bytes. It stands in the two top bits of the first byte, as 0 to 3.
#[derive(Clone, Copy, PartialEq, Eq)]
enum Class {
    One,
    Two,
    Four,
    Eight,
}

impl Class {
    // The shortest width that holds the value. No `TryFrom`: that none holds it is a refusal only to the two callers.
    fn of(value: u64) -> Option<Class>
        ensures { place_of result ≡ class value }
    {
        if value < Class::One.ceiling() {
            return Some(Class::One);
        }
        if value < Class::Two.ceiling() {
            return Some(Class::Two);
        }
        if value < Class::Four.ceiling() {
            return Some(Class::Four);
        }
        if value < Class::Eight.ceiling() {
            return Some(Class::Eight);
        }
        None
    }

    // How many bytes it has.
    fn width(self) -> usize
        ensures { result ≡ width (place self) }
    {
        match self {
            Class::One => 1,
            Class::Two => 2,
            Class::Four => 4,
            Class::Eight => 8,
        }
    }

    // The first value that it is too narrow for.
    fn ceiling(self) -> u64
        ensures { result ≡ ceiling (place self) }
    {
        match self {
            Class::One => 64,
            Class::Two => 16384,
            Class::Four => 1073741824,
            Class::Eight => 4611686018427387904,
        }
    }

    // What bytes of this width hold that write a number: the two top bits are no part of the value.
    fn varint(self, number: u64) -> Varint
        ensures { result ≡ record { value = number % ceiling (place self); width = width (place self) } }
    {
        Varint {
            value: number % self.ceiling(),
            width: self.width(),
        }
    }

    // Writes the value, which it holds, over the front of the output.
    fn put(self, value: u64, out: &mut [u8])
        requires { (width (place self) ≤ length out.old) × (value < ceiling (place self)) }
        ensures { out.new ≡ front (form (place self) value) out.old }
    {
        match self {
            Class::One => put_be::<1>(out, value),
            Class::Two => put_be::<2>(out, Class::Two.ceiling() + value),
            Class::Four => put_be::<4>(out, 2 * Class::Four.ceiling() + value),
            Class::Eight => put_be::<8>(out, 3 * Class::Eight.ceiling() + value),
        }
    }
}

// The shortest width of a value; refusal 1 from 2^62 on.
pub fn size(value: u64) -> Result<usize, Refusal>
    ensures { Sized value result }
{
    let Some(class) = Class::of(value) else {
        return Err(Refusal::ValueTooLarge);
    };
    Ok(class.width())
}

// Writes a value in its shortest width over the front of the output; later bytes stay. Refusals leave all of it: 1 from 2^62 on,
// 2 where the output is shorter than the width.
pub fn write(value: u64, out: &mut [u8]) -> Result<usize, Refusal>
    ensures { Written value out.old result out.new }
{
    let Some(class) = Class::of(value) else {
        return Err(Refusal::ValueTooLarge);
    };
    let width = class.width();
    if out.len() < width {
        return Err(Refusal::NoRoomForVarint);
    }
    class.put(value, out);
    Ok(width)
}

// The shortest width of a value that has one, for callers that know it.
pub fn varint_length(value: u64) -> usize
    requires { value < 2 ^ 62 }
    ensures { (result ≡ width (class value)) × (result ≤ 8) }
{
    size(value).unwrap()
}

// Writes a value that has a varint over the front of an output that holds it, and gives the width. Without `write`, which asks whether it
// does: with no question between class and bytes each width is compiled to a way of its own, and 16,384 bytes are cut into frames of one
// byte in 58,000 ns for 91,000.
pub fn put_varint(out: &mut [u8], value: u64) -> usize
    requires { (value < 2 ^ 62) × (width (class value) ≤ length out.old) }
    ensures { Put (shortest value) result out.old out.new }
{
    let class = Class::of(value).unwrap();
    class.put(value, out);
    class.width()
}

// Reads the varint at the front of the input, in any width; refusal 3 where bytes of it are missing. The first byte is held against the
// bounds one after the other: a `match` on its two top bits is a jump by a table, which took four times as long for reads in a row.
pub fn read(input: &[u8]) -> Result<Varint, Refusal>
    ensures { Found input.now result }
{
    let Some(&first) = input.first() else {
        return Err(Refusal::VarintCut);
    };
    if first < 64 {
        return Ok(Class::One.varint(u64::from(first)));
    }
    if first < 128 {
        let Some(&bytes) = input.first_chunk() else {
            return Err(Refusal::VarintCut);
        };
        return Ok(Class::Two.varint(u64::from(u16::from_be_bytes(bytes))));
    }
    if first < 192 {
        let Some(&bytes) = input.first_chunk() else {
            return Err(Refusal::VarintCut);
        };
        return Ok(Class::Four.varint(u64::from(u32::from_be_bytes(bytes))));
    }
    let Some(&bytes) = input.first_chunk() else {
        return Err(Refusal::VarintCut);
    };
    Ok(Class::Eight.varint(u64::from_be_bytes(bytes)))
}
