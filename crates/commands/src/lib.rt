// The commands of a script. The first word of a line says which command it is, and so which operands it has; they are read, and the
// call that answers the command is made. The handle `rt` is for the files among the operands.
#![tactic(auto)]

ghost use Rattle.std.specs.Prelude.{length, IfOk};
ghost use Rattle.commands.specs.Bounds.{Fits};

use answers::{Fault, Said, room};
use operands::kinds::Command;
use operands::{Call, INPUTS, Inputs, OPERAND};
use script::words::{has_operands, word_at};
use std::rt::Files;

// Answers a line. `kept` is what `_` stands for; what the answer hands back is put at the front of `last`.
pub fn command(
    rt: &impl Files,
    line: &[u8],
    kept: &[u8],
    last: &mut [u8],
    out: &mut [u8],
) -> Result<Said, Fault>
    ensures { IfOk result (λ said. Fits (length last.old) (length out.old) said) }
{
    let Some(command) = Command::from_word(word_at(line, 0)) else {
        return Err(Fault::NoCommand);
    };
    if !has_operands(line, command.operands()) {
        return Err(Fault::Count);
    }
    let call = Call { line, command };
    let value = call.read_value()?;
    answer_call(rt, call, value, kept, last, out)
}

// Reads the bytes that the command reads. Neither this nor `answer_filled` is inlined, and each begins with its buffers: a function's arrays
// are cleared where it begins, and those that it makes later, after it may have returned, once more where they are made.
#[inline(never)]
fn answer_call(
    rt: &impl Files,
    call: Call<'_>,
    value: u64,
    kept: &[u8],
    last: &mut [u8],
    out: &mut [u8],
) -> Result<Said, Fault>
    ensures { IfOk result (λ said. Fits (length last.old) (length out.old) said) }
{
    let mut bytes = room::<INPUTS>();
    let inputs = call.read_inputs(rt, kept, &mut bytes)?;
    answer_filled(rt, call, value, inputs, kept, last, out)
}

// Reads the buffers that the command fills.
#[inline(never)]
fn answer_filled(
    rt: &impl Files,
    call: Call<'_>,
    value: u64,
    inputs: Inputs<'_>,
    kept: &[u8],
    last: &mut [u8],
    out: &mut [u8],
) -> Result<Said, Fault>
    ensures { IfOk result (λ said. Fits (length last.old) (length out.old) said) }
{
    let mut buffer = room::<OPERAND>();
    let mut marks = room::<OPERAND>();
    let buffer = call.read_buffer(rt, 0, kept, &mut buffer)?;
    let marks = call.read_buffer(rt, 1, kept, &mut marks)?;
    Ok(answer(call.command, value, inputs, buffer, marks, last, out))
}

// Answers a command whose operands are read.
fn answer(
    command: Command,
    value: u64,
    inputs: Inputs,
    buffer: &mut [u8],
    marks: &mut [u8],
    last: &mut [u8],
    out: &mut [u8],
) -> Said
    ensures { Fits (length last.old) (length out.old) result }
{
    let Inputs {
        first,
        second,
        third,
    } = inputs;
    match command {
        Command::Size => answers::say_size(value, out),
        Command::Write => answers::say_write(value, buffer, out),
        Command::Read => answers::say_read(first, out),
        Command::Make => answers::say_make(value, first, second, third, buffer, last, out),
        Command::Join => answers::say_join(first, buffer, marks, last, out),
        Command::Frames => answers::say_frames(value, first, buffer, last, out),
        Command::Split => answers::say_split(value, first, last, out),
        Command::ShowFrames => answers_reader::say_show_frames(first, out),
        Command::Report => answers_reader::say_report(first, out),
        Command::Show => answers_reader::say_show(first, out),
        Command::Name => answers_reader::say_name(first, second, last, out),
        Command::Set => answers_reader::say_set(first, out),
        Command::Alike => answers_reader::say_alike(first, second, out),
    }
}
