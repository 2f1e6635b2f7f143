// Byte operands, which may be files.
ghost use Rattle.std.specs.Prelude.{◌≤◌, length, IfOk};

use crate::files::read_file;
use answers::Fault;
use script::reading::{Piece, piece_end, read_piece};
use std::rt::Files;

// Reads an operand: pieces joined by `+`, of which `_` stands for `kept`. Its bytes are put at the front of the output, and their
// count is given.
pub fn read_operand(
    rt: &impl Files,
    text: &[u8],
    kept: &[u8],
    out: &mut [u8],
) -> Result<usize, Fault>
    ensures { IfOk result (λ n. n ≤ length out.old) }
{
    let mut rest = text;
    let mut n: usize = 0;
    // No iterator over pieces: it would have to hand out pieces and the fault after one, and would be used here alone.
    loop {
        let (piece, after) = rest.split_at(piece_end(rest, 0));
        n += read_one(rt, piece, kept, &mut out[n..])?;
        match after {
            [] => return Ok(n),
            [b'+', more @ ..] => rest = more,
            _ => return Err(Fault::NoPiece),
        }
    }
}

fn read_one(rt: &impl Files, piece: &[u8], kept: &[u8], out: &mut [u8]) -> Result<usize, Fault>
    ensures { IfOk result (λ n. n ≤ length out.old) }
{
    if piece.is_empty() {
        return Err(Fault::NoPiece);
    }
    match read_piece(piece, kept, out)? {
        Piece::Bytes(n) => Ok(n),
        Piece::File => read_file(rt, &piece[1..], out),
    }
}
