// The operands of a command. The first word of a line says which command it is, and so how many operands it has, of which kind.
#![tactic(auto)]

mod bytes;
mod files;
pub mod kinds;

ghost use Rattle.std.specs.Prelude.{◌+◌, ◌≤◌, length, IfOk};
ghost use Rattle.operands.specs.Bounds.{Within};

use answers::Fault;
use bytes::read_operand;
use kinds::Command;
use script::reading::read_number;
use script::words::word_at;
use std::rt::Files;

// The script language allows an operand of 131,072 bytes, and no command reads more than three.
pub const OPERAND: usize = 131072;

pub const INPUTS: usize = 393216;

// A profile is a number, or one of three names. It stays a number: a line may name any, and the maker refuses one that no profile has.
fn read_profile(word: &[u8]) -> Option<u64> {
    match word {
        b"chrome" => Some(0),
        b"firefox" => Some(1),
        b"curl" => Some(2),
        _ => read_number(word),
    }
}

// The bytes that a command reads, in the order of its operands. Those that it lacks are empty, and no Option: no command takes what it lacks.
#[derive(Clone, Copy)]
pub struct Inputs<'a> {
    pub first: &'a [u8],
    pub second: &'a [u8],
    pub third: &'a [u8],
}

// Reads a word of bytes to the output's front, and hands out them and the output after them. No word is no bytes. The handle, and what `_`
// stands for, are lent each on its own, here and below: a struct of them would be made for each call.
fn read_word<'a>(
    rt: &impl Files,
    word: Option<&[u8]>,
    kept: &[u8],
    out: &'a mut [u8],
) -> Result<(&'a mut [u8], &'a mut [u8]), Fault>
    ensures { IfOk result (λ r. length r.0.now + length r.1.now ≤ length out.old) }
{
    let Some(text) = word else {
        return Ok(out.split_at_mut(0));
    };
    let most = out.len().min(OPERAND);
    let n = read_operand(rt, text, kept, &mut out[..most])?;
    Ok(out.split_at_mut(n))
}

// A line, and the command that its first word says.
#[derive(Clone, Copy)]
pub struct Call<'a> {
    pub line: &'a [u8],
    pub command: Command,
}

impl Call<'_> {
    // The word of bytes that the command reads, those that have i others before them.
    fn input(&self, i: usize) -> Option<&[u8]> {
        if self.command.inputs() <= i {
            return None;
        }
        Some(word_at(self.line, 1 + self.command.numbers() + i))
    }

    // The word of a buffer that the command fills, the one that has i others before it. Beside `input`, and not one function of both: count and
    // place would be its arguments.
    fn buffer(&self, i: usize) -> Option<&[u8]> {
        if self.command.buffers() <= i {
            return None;
        }
        let place = 1 + self.command.numbers() + self.command.inputs() + i;
        Some(word_at(self.line, place))
    }

    // The number that the command has as its first operand. As bytes that it lacks are none, a number that it lacks is 0: with an
    // Option its answer would have a case that cannot be.
    pub fn read_value(&self) -> Result<u64, Fault> {
        if self.command.numbers() == 0 {
            return Ok(0);
        }
        let word = word_at(self.line, 1);
        let value = if self.command == Command::Make {
            read_profile(word)
        } else {
            read_number(word)
        };
        value.ok_or(Fault::NoNumber)
    }

    // Reads the bytes that the command reads to the output, one after the other; `_` stands for `kept`. Those that it lacks are none.
    pub fn read_inputs<'a>(
        &self,
        rt: &impl Files,
        kept: &[u8],
        out: &'a mut [u8],
    ) -> Result<Inputs<'a>, Fault>
        ensures { IfOk result (λ r. Within (length out.old) r) }
    {
        let (first, rest) = read_word(rt, self.input(0), kept, out)?;
        let (second, rest) = read_word(rt, self.input(1), kept, rest)?;
        let (third, _) = read_word(rt, self.input(2), kept, rest)?;
        Ok(Inputs {
            first,
            second,
            third,
        })
    }

    // Reads a buffer that the command fills, the one that has i others before it; it is empty where the command fills no more than i. It may
    // have as many bytes as the output, so no `read_word`, which stops at what an operand may have.
    pub fn read_buffer<'a>(
        &self,
        rt: &impl Files,
        i: usize,
        kept: &[u8],
        out: &'a mut [u8],
    ) -> Result<&'a mut [u8], Fault>
        ensures { IfOk result (λ b. length b.now ≤ length out.old) }
    {
        let Some(text) = self.buffer(i) else {
            return Ok(&mut out[..0]);
        };
        let n = read_operand(rt, text, kept, out)?;
        Ok(&mut out[..n])
    }
}
