// The lines of a script, from what is read of it chunk by chunk. Each byte is copied to the line once, and a line that is too long
// is passed over up to its line feed.
ghost use Rattle.std.specs.Prelude.{◌≡◌, ◌≤◌, length};
ghost use Rattle.script.specs.Input.{start_of, filled_of, ended_of, next_line_of, passed_of, Held, Appended, Taken};

use crate::reading::find;

#[derive(Clone, Copy, PartialEq, Eq, Debug)]
pub struct Input {
    // The chunk's bytes from start to end are still to be taken. Places and no slice: the chunk is read into again while they stand.
    pub start: usize,
    pub end: usize,
    pub length: usize, // of the line, as far as it has been taken; of one that is too long, its first bytes
    pub number: u64, // the line's, from 1
    // Three facts and no state: a line is too long before it has ended, and a script ends with a line that is whole, or with none.
    pub long: bool, // the line has more bytes than a line may have
    pub whole: bool, // the line has ended
    pub over: bool, // the script has ended
}

impl Input {
    // Before the first read: line 1, nothing taken.
    pub fn start() -> Input
        ensures { result ≡ start_of }
    {
        Input {
            start: 0,
            end: 0,
            length: 0,
            number: 1,
            long: false,
            whole: false,
            over: false,
        }
    }

    // The chunk is used up, and n bytes have been read to its front: none at the script's end.
    pub fn fill(self, n: usize) -> Input
        ensures { result ≡ filled_of self n }
    {
        if n == 0 {
            return self.end();
        }
        Input {
            start: 0,
            end: n,
            ..self
        }
    }

    // At the script's end what has been taken is a line, though it lacks its line feed.
    fn end(self) -> Input
        ensures { result ≡ ended_of self }
    {
        Input {
            start: 0,
            end: 0,
            whole: self.long || 0 < self.length,
            over: true,
            ..self
        }
    }

    // Moves bytes of the chunk to the line, up to the next line feed.
    pub fn take(self, chunk: &[u8], line: &mut [u8]) -> Input
        requires { Held (length chunk.now) (length line.old) self }
        ensures { Taken chunk.now self result line.old line.new }
    {
        let start = self.start;
        let pending = &chunk[start..self.end];
        let n = find(pending, 0, b'\n').unwrap_or(pending.len());
        let longer = self.append(line, &pending[0..n]);
        longer.pass(start + n)
    }

    fn append(self, line: &mut [u8], part: &[u8]) -> Input
        requires { self.length ≤ length line.old }
        ensures { Appended part.now self result line.old line.new }
    {
        let length = self.length;
        if line.len() - length < part.len() {
            return Input { long: true, ..self };
        }
        let n = wire::put_bytes(&mut line[length..], part);
        Input {
            length: length + n,
            ..self
        }
    }

    // The chunk's bytes before a place are taken; where the chunk has one there, it is a line feed.
    fn pass(self, place: usize) -> Input
        requires { place ≤ self.end }
        ensures { result ≡ passed_of self place }
    {
        if place < self.end {
            return Input {
                start: place + 1,
                whole: true,
                ..self
            };
        }
        Input {
            start: place,
            ..self
        }
    }

    pub fn next_line(self) -> Input
        ensures { result ≡ next_line_of self }
    {
        Input {
            length: 0,
            number: self.number.wrapping_add(1),
            long: false,
            whole: false,
            ..self
        }
    }
}
