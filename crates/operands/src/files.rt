// The bytes of a file, for a piece `@path`. A path is UTF-8 text.
ghost use Rattle.std.specs.Prelude.{◌≤◌, length, IfOk};

use answers::Fault;
use std::io::Read;
use std::rt::Files;
use std::{fs, str};

pub fn read_file(rt: &impl Files, path: &[u8], out: &mut [u8]) -> Result<usize, Fault>
    ensures { IfOk result (λ n. n ≤ length out.old) }
{
    let Ok(path) = str::from_utf8(path) else {
        return Err(Fault::NoFile);
    };
    let Ok(mut file) = fs::open(rt, path) else {
        return Err(Fault::NoFile);
    };
    let n = read_full(&mut file, out);
    at_end(&mut file)?;
    Ok(n)
}

// Fills the output from its front, until it is full, the file ends or a read fails, and gives how many bytes that are. A count, here and in
// bytes.rt, and no slice: the next piece is put after it.
fn read_full(file: &mut impl Read, out: &mut [u8]) -> usize
    ensures { result ≤ length out.old }
{
    let mut n: usize = 0;
    // A place and not an item: each read gives as many bytes as it likes.
    while n < out.len() {
        let Ok(got) = file.read(&mut out[n..]) else {
            break;
        };
        if got == 0 {
            break;
        }
        n += got;
    }
    n
}

// Now the file must have no byte more. One that cannot be read, as a folder, says so here.
fn at_end(file: &mut impl Read) -> Result<(), Fault> {
    let mut one = [0u8; 1];
    match file.read(&mut one) {
        Ok(0) => Ok(()),
        Ok(_) => Err(Fault::LongOperand),
        Err(_) => Err(Fault::NoFile),
    }
}
