//! Writing through a buffer.
ghost use Rattle.std.specs.Prelude.{[], ◌≡◌, ◌+◌, ◌<◌, ◌++◌, length, vec_capacity, vec_len, IfOk, OnOk, OnErr};
ghost use Rattle.std.specs.Io.KnownBytes.{Appends};
ghost use Rattle.version_lines.specs.Lines.{labelled_line, AppendsProperBeginning, AppendsUpTo};

use std::alloc::{AllocError, Global};
use std::io::Write;

/// The writer failed, or takes no more.
#[derive(Clone, Copy, Debug, PartialEq, Eq)]
pub struct NotWritten;

// The capacity of the buffer in bytes.
const CAPACITY: usize = 64 * 1024;

/// Returns an empty buffer.
pub fn make_buffer(alloc: Global) -> Result<Vec<u8>, AllocError>
    ensures { IfOk result (λ buffer. buffer.items ≡ []) }
{
    Vec::with_capacity(alloc, CAPACITY)
}

/// Writes all bytes. It stops at the first call of `write` that fails or writes nothing, interrupted calls included.
pub fn write_whole<W: Write>(writer: &mut W, bytes: &[u8]) -> Result<(), NotWritten>
    ensures ok { OnOk result (Appends (W.contents writer.old) (W.contents writer.new) bytes.now) }
    ensures err { OnErr result
        (AppendsProperBeginning (W.contents writer.old) (W.contents writer.new) bytes.now) }
{
    let mut rest = bytes;
    while !rest.is_empty() {
        let Ok(taken) = writer.write(rest) else {
            return Err(NotWritten);
        };
        if taken == 0 {
            return Err(NotWritten);
        }
        rest = &rest[taken..];
    }
    Ok(())
}

/// Adds the bytes to the buffer. If they do not fit, the buffer is written first; bytes that exceed its capacity are
/// then written at once. Does not allocate.
pub fn put<W: Write>(writer: &mut W, buffer: &mut Vec<u8>, bytes: &[u8]) -> Result<(), NotWritten>
    ensures ok { OnOk result (AppendsUpTo (W.contents writer.old) (W.contents writer.new)
        buffer.new.items (buffer.old.items ++ bytes.now)) }
    ensures err { OnErr result (AppendsProperBeginning (W.contents writer.old)
        (W.contents writer.new) (buffer.old.items ++ bytes.now)) }
{
    if bytes.len() > buffer.capacity() - buffer.len() {
        write_whole(writer, buffer.as_slice())?;
        buffer.clear();
        if bytes.len() > buffer.capacity() {
            return write_whole(writer, bytes);
        }
    }
    buffer.extend_from_slice(bytes).unwrap();
    Ok(())
}

/// Adds a label, a line and the byte that ends it to the buffer.
pub fn put_line<W: Write>(
    writer: &mut W,
    buffer: &mut Vec<u8>,
    end: u8,
    label: &[u8],
    line: &[u8],
) -> Result<(), NotWritten>
    ensures ok { OnOk result (AppendsUpTo (W.contents writer.old) (W.contents writer.new)
        buffer.new.items (buffer.old.items ++ labelled_line end label.now line.now)) }
    ensures err { OnErr result (AppendsProperBeginning (W.contents writer.old)
        (W.contents writer.new) (buffer.old.items ++ labelled_line end label.now line.now)) }
{
    let room = buffer.capacity() - buffer.len();
    if line.len() < room && label.len() < room - line.len() {
        add_line(buffer, end, label, line);
        return Ok(());
    }
    put(writer, buffer, label)?;
    put(writer, buffer, line)?;
    put(writer, buffer, &[end])
}

// Adds a label, a line and the byte that ends it, which have to fit.
#[inline(always)]
fn add_line(buffer: &mut Vec<u8>, end: u8, label: &[u8], line: &[u8])
    requires { vec_len buffer.old + length label.now + length line.now < vec_capacity buffer.old }
    ensures { buffer.new.items ≡ buffer.old.items ++ labelled_line end label.now line.now }
{
    if !label.is_empty() {
        buffer.extend_from_slice(label).unwrap();
    }
    buffer.extend_from_slice(line).unwrap();
    buffer.push_reserved(end);
}
