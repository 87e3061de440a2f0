//! Writing of bytes that says what is written if the writer fails.

ghost use Rattle.std.specs.Prelude.{IfOk, OnErr, OnOk};
ghost use Rattle.std.specs.Io.KnownBytes.{Appends};
ghost use Rattle.written_bytes.specs.WrittenBytes.{AppendsFront, WritesBefore};

use std::io;
use std::io::{ErrorKind, Write};

// Writes bytes by one call of the writer. Returns the bytes that the writer did not take: all of
// them if it was interrupted.
fn send_some<'a, W: Write>(writer: &mut W, bytes: &'a [u8]) -> io::Result<&'a [u8]>
    ensures taken { IfOk result (λ rest.
        WritesBefore (W.contents writer.old) (W.contents writer.new) rest.now bytes.now) }
    ensures front { OnErr result
        (AppendsFront (W.contents writer.old) (W.contents writer.new) bytes.now) }
{
    match writer.write(bytes) {
        Ok(0) => Err(io::Error::from(ErrorKind::WriteZero)),
        Ok(count) => Ok(&bytes[count..]),
        Err(error) => {
            if error.kind() == ErrorKind::Interrupted {
                return Ok(bytes);
            }
            Err(error)
        }
    }
}

/// Writes all bytes and flushes the writer. If it fails, a prefix of the bytes is written, which
/// `write_all` does not promise.
pub fn send<W: Write>(writer: &mut W, bytes: &[u8]) -> io::Result<()>
    ensures written { OnOk result
        (Appends (W.contents writer.old) (W.contents writer.new) bytes.now) }
    ensures front { OnErr result
        (AppendsFront (W.contents writer.old) (W.contents writer.new) bytes.now) }
{
    let mut rest = bytes;
    for _ in 0..u64::MAX {
        if rest.is_empty() {
            return writer.flush();
        }
        rest = send_some(writer, rest)?;
    }
    Err(io::Error::from(ErrorKind::WriteZero))
}
