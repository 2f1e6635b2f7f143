// The commands: their words, and how many operands each has, of which kind. The operands stand in this order: a number, bytes
// that are read, buffers that are filled.
ghost use Rattle.std.specs.Prelude.{◌≡◌, ◌≤◌, ◌+◌};
ghost use Rattle.operands.specs.Commands.{command_of, kinds_of, numbers_in, inputs_in, buffers_in};

#[derive(Clone, Copy, PartialEq, Eq, Debug)]
pub enum Command {
    Size,
    Write,
    Read,
    Make,
    Join,
    Frames,
    Split,
    ShowFrames,
    Report,
    Show,
    Name,
    Set,
    Alike,
}

impl Command {
    // The command that has this word. No `TryFrom`: its error would be a fault of a line, which is the business of who reads the line.
    pub fn from_word(word: &[u8]) -> Option<Command>
        ensures { result ≡ command_of word.now }
    {
        match word {
            b"size" => Some(Command::Size),
            b"write" => Some(Command::Write),
            b"read" => Some(Command::Read),
            b"make" => Some(Command::Make),
            b"join" => Some(Command::Join),
            b"frames" => Some(Command::Frames),
            b"split" => Some(Command::Split),
            b"show-frames" => Some(Command::ShowFrames),
            b"report" => Some(Command::Report),
            b"show" => Some(Command::Show),
            b"name" => Some(Command::Name),
            b"set" => Some(Command::Set),
            b"alike" => Some(Command::Alike),
            _ => None,
        }
    }

    // 1 where the first operand is a number, or for `make` a profile.
    pub fn numbers(self) -> usize
        ensures is { result ≡ numbers_in (kinds_of self) }
        ensures most { result ≤ 1 }
    {
        match self {
            Command::Size | Command::Write | Command::Make | Command::Frames | Command::Split => 1,
            _ => 0,
        }
    }

    // How many operands are bytes that are read.
    pub fn inputs(self) -> usize
        ensures is { result ≡ inputs_in (kinds_of self) }
        ensures most { result ≤ 3 }
    {
        match self {
            Command::Size | Command::Write => 0,
            Command::Name | Command::Alike => 2,
            Command::Make => 3,
            _ => 1,
        }
    }

    // How many operands are buffers that are filled.
    pub fn buffers(self) -> usize
        ensures is { result ≡ buffers_in (kinds_of self) }
        ensures most { result ≤ 2 }
    {
        match self {
            Command::Write | Command::Make | Command::Frames => 1,
            Command::Join => 2,
            _ => 0,
        }
    }

    // How many operands there are.
    pub fn operands(self) -> u8
        ensures { result ≡ numbers_in (kinds_of self) + inputs_in (kinds_of self) + buffers_in (kinds_of self) }
    {
        (self.numbers() + self.inputs() + self.buffers()) as u8
    }
}
