//! The buffers of `post` lines.

ghost use Rattle.std.specs.Prelude.{◌≤◌, IfOk};
ghost use Rattle.vt_types.specs.Operation.{posted_buffer};
ghost use Rattle.script_text.specs.Reading.{Reads, Spells};
ghost use Rattle.script_text.specs.Post as spec;
ghost use Rattle.script_text.specs.Pieces.{piece_value, Adds};
ghost use Rattle.vt_types.specs.Within.{IsPieceWithin, IsBufferWithin};

use crate::fault::LineFault;
use crate::fields::{decimal, hex_bytes};
use crate::words::Words;
use arrayvec::ArrayVec;
use std::alloc::Global;
use vt_types::{Bytes, LONGEST_PIECE, MOST_PIECES, PostBuf};

/// A piece of a buffer: bytes that the device reads, or so many bytes for it to write.
#[derive(Drop)]
pub(crate) enum Piece {
    Readable(Bytes),
    Writable(u16),
}

/// A piece: `r:` and 1 to `LONGEST_PIECE` bytes in hexadecimal, or `w:` and a number from 1 to `LONGEST_PIECE`.
fn piece_in(alloc: Global, word: &[u8]) -> Result<Piece, LineFault>
    ensures value { Spells piece_value result (spec.piece_in word.now) }
    ensures within { IfOk result (λ piece. IsPieceWithin (spec.piece_length (piece_value piece))) }
{
    if let Some(digits) = word.strip_prefix(b"r:") {
        let bytes = hex_bytes(alloc, digits, LONGEST_PIECE as usize)?;
        return Ok(Piece::Readable(bytes));
    }
    if let Some(digits) = word.strip_prefix(b"w:") {
        return match decimal(digits, 1, LONGEST_PIECE as u64) {
            Some(count) => Ok(Piece::Writable(count as u16)),
            None => Err(LineFault::Bad),
        };
    }
    Err(LineFault::Bad)
}

/// Adds a piece at the end of a buffer: `Bad` where it has `MOST_PIECES`, or where a readable piece would come after a
/// writable one.
fn add(alloc: Global, posted: &mut PostBuf, piece: Piece) -> Result<(), LineFault>
    requires { spec.piece_length (piece_value piece) ≤ LONGEST_PIECE }
    ensures { Adds (piece_value piece) result (posted_buffer posted.old) (posted_buffer posted.new) }
{
    if posted.cuts.len() == MOST_PIECES {
        return Err(LineFault::Bad);
    }
    match piece {
        Piece::Readable(bytes) => {
            if posted.nread as usize != posted.cuts.len() {
                return Err(LineFault::Bad);
            }
            posted.readable.extend(alloc, bytes.as_slice())?;
            posted.cuts.push(bytes.len() as u16);
            posted.nread += 1;
        }
        Piece::Writable(count) => posted.cuts.push(count),
    }
    Ok(())
}

/// The buffer of all the pieces in front of the events.
fn pieces(
    alloc: Global,
    tag: u16,
    indirect: bool,
    words: &mut Words<'_>,
) -> Result<PostBuf, LineFault>
    ensures value { Reads posted_buffer result words.new (spec.posted tag indirect words.old) }
    ensures within { IfOk result (λ buffer. IsBufferWithin (posted_buffer buffer)) }
{
    let mut posted = PostBuf {
        tag,
        indirect,
        readable: Bytes::new(alloc),
        cuts: ArrayVec::new(),
        nread: 0,
    };
    'pieces: while let Some(word) = words.next_unless(b'@') {
        let piece = piece_in(alloc, word)?;
        add(alloc, &mut posted, piece)?;
    }
    if posted.cuts.is_empty() {
        return Err(LineFault::Bad);
    }
    Ok(posted)
}

/// The buffer of a line: its tag, `ind` where it asks for an indirect table, and 1 to `MOST_PIECES` pieces.
pub(crate) fn buffer(alloc: Global, words: &mut Words<'_>) -> Result<PostBuf, LineFault>
    ensures value { Reads posted_buffer result words.new (spec.buffer words.old) }
    ensures within { IfOk result (λ buffer. IsBufferWithin (posted_buffer buffer)) }
{
    let tag = words.number16()?;
    let indirect = words.next_is(b"ind");
    pieces(alloc, tag, indirect, words)
}
