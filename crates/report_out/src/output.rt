//! What is sent to the sink.

ghost use Rattle.std.specs.Prelude.{◌≡◌, ℕ, ◌+◌, ◌<◌, ◌≤◌, List, length, is_ok};
ghost use Rattle.hex.specs.Hex.{encode_lower};
ghost use Rattle.vt_outside.specs.Disk.{DiskView};
ghost use Rattle.vt_outside.specs.Sink.{SinkView};
ghost use Rattle.report_text.specs.EndParts.{disk_line};
ghost use Rattle.report_text.specs.Words.{hex};
ghost use Rattle.report_out.specs.DiskCalls.{IsWhole};
ghost use Rattle.report_out.specs.EndText.{disk_text, reading_text};
ghost use Rattle.report_out.specs.Output.{Sends, SendsDisk};
ghost use Rattle.report_out.specs.Pieces.{console_text, line_of_sector, lines_below};

use crate::stop::Stop;
use report_text::{LINE_SPARE, Text};
use vt_outside::{Disk, Failed, Sink};

/// How many bytes of the console are sent at once.
const PIECE: usize = 4096;

/// Sends all the bytes, or a part of them where the sink fails.
pub fn send<K: Sink>(sink: &mut K, bytes: &[u8]) -> Result<(), Stop>
    ensures { Sends (K.view sink.old) (K.view sink.new) bytes.now result }
{
    let mut sent = 0;
    while sent < bytes.len() {
        match sink.write(&bytes[sent..]) {
            Ok(n) => sent += n,
            Err(Failed) => return Err(Stop::Write),
        }
    }
    Ok(())
}

/// Sends the digits of some bytes of the console: at most `PIECE`.
fn send_piece<K: Sink>(piece: &[u8], text: &mut Text, sink: &mut K) -> Result<(), Stop>
    requires some { 0 < length piece.now }
    requires few { length piece.now ≤ PIECE }
    requires spare { LINE_SPARE ≤ text.old.spare + length text.old.bytes }
    ensures sends { Sends (K.view sink.old) (K.view sink.new) (encode_lower piece.now) result }
    ensures spare { LINE_SPARE ≤ text.new.spare + length text.new.bytes }
{
    text.clear();
    text.hex(piece);
    send(sink, text.bytes())
}

/// Sends bytes in hexadecimal, a piece at a time.
fn send_hex<K: Sink>(bytes: &[u8], text: &mut Text, sink: &mut K) -> Result<(), Stop>
    requires { LINE_SPARE ≤ text.old.spare + length text.old.bytes }
    ensures sends { Sends (K.view sink.old) (K.view sink.new) (hex bytes.now) result }
    ensures spare { LINE_SPARE ≤ text.new.spare + length text.new.bytes }
{
    if bytes.is_empty() {
        return send(sink, b"-");
    }
    let mut at = 0;
    'pieces: while at < bytes.len() {
        let count = PIECE.min(bytes.len() - at);
        match send_piece(&bytes[at..at + count], text, sink) {
            Ok(()) => at += count,
            Err(stop) => return Err(stop),
        }
    }
    Ok(())
}

/// Sends that no frame was sent, and the bytes of the console. `text` is a workspace: what it held is gone, and with the
/// bytes that this took it has spare ones for a line.
pub fn send_console<K: Sink>(console: &[u8], text: &mut Text, sink: &mut K) -> Result<(), Stop>
    requires { LINE_SPARE ≤ text.old.spare + length text.old.bytes }
    ensures sends { Sends (K.view sink.old) (K.view sink.new) (console_text console.now) result }
    ensures spare { LINE_SPARE ≤ text.new.spare + length text.new.bytes }
{
    match send(sink, b"frames 0\nconsole ") {
        Ok(()) => {}
        Err(stop) => return Err(stop),
    }
    match send_hex(console, text, sink) {
        Ok(()) => {}
        Err(stop) => return Err(stop),
    }
    send(sink, b"\n")
}

/// Sends how many sectors the disk has.
fn send_count<K: Sink>(count: u64, text: &mut Text, sink: &mut K) -> Result<(), Stop>
    requires { LINE_SPARE ≤ text.old.spare + length text.old.bytes }
    ensures sends { Sends (K.view sink.old) (K.view sink.new) (disk_line count) result }
    ensures spare { LINE_SPARE ≤ text.new.spare + length text.new.bytes }
{
    text.clear();
    text.disk(count);
    send(sink, text.bytes())
}

/// Makes the line of a sector, which was read or not.
fn sector_line(n: u64, read: Result<(), Failed>, bytes: &[u8; 512], text: &mut Text)
    requires { LINE_SPARE ≤ text.old.spare + length text.old.bytes }
    ensures text { text.new.bytes ≡ reading_text n bytes.now (is_ok read) }
    ensures spare { LINE_SPARE ≤ text.new.spare + length text.new.bytes }
{
    text.clear();
    match read {
        Ok(()) => text.sector(n, bytes),
        Err(Failed) => text.unreadable(n),
    }
}

/// Reads sector `n`, and sends its line where it isn't all zeros or can't be read.
fn send_sector<K: Sink, D: Disk>(
    n: u64,
    text: &mut Text,
    sink: &mut K,
    disk: &mut D,
) -> Result<(), Stop>
    requires there { n < (D.view disk.old).count }
    requires whole { IsWhole (D.view disk.old) }
    requires spare { LINE_SPARE ≤ text.old.spare + length text.old.bytes }
    ensures sends { SendsDisk (line_of_sector n) 1 (D.view disk.old) (D.view disk.new) (K.view sink.old) (K.view sink.new) result }
    ensures spare { LINE_SPARE ≤ text.new.spare + length text.new.bytes }
{
    let mut bytes = [0u8; 512];
    let read = disk.read_sector(n, &mut bytes);
    sector_line(n, read, &bytes, text);
    send(sink, text.bytes())
}

/// Sends the lines of all sectors.
fn send_sectors<K: Sink, D: Disk>(
    count: u64,
    text: &mut Text,
    sink: &mut K,
    disk: &mut D,
) -> Result<(), Stop>
    requires all { count ≡ (D.view disk.old).count }
    requires whole { IsWhole (D.view disk.old) }
    requires spare { LINE_SPARE ≤ text.old.spare + length text.old.bytes }
    ensures spare { LINE_SPARE ≤ text.new.spare + length text.new.bytes }
    ensures sends { SendsDisk (lines_below count) count (D.view disk.old) (D.view disk.new) (K.view sink.old) (K.view sink.new) result }
{
    'sectors: for n in 0..count {
        match send_sector(n, text, sink, disk) {
            Ok(()) => {}
            Err(stop) => return Err(stop),
        }
    }
    Ok(())
}

/// Sends how many sectors the disk has, the line of each that isn't all zeros, and the end. A sector that can't be read
/// has a line that says so. `text` is a workspace: what it held is gone, and with the bytes that this took it has spare
/// ones for a line.
pub fn send_disk<K: Sink, D: Disk>(text: &mut Text, sink: &mut K, disk: &mut D) -> Result<(), Stop>
    requires { LINE_SPARE ≤ text.old.spare + length text.old.bytes }
    ensures spare { LINE_SPARE ≤ text.new.spare + length text.new.bytes }
    ensures sends { SendsDisk disk_text (D.view disk.old).count (D.view disk.old) (D.view disk.new) (K.view sink.old) (K.view sink.new) result }
{
    let count = disk.sectors();
    match send_count(count, text, sink) {
        Ok(()) => {}
        Err(stop) => return Err(stop),
    }
    match send_sectors(count, text, sink, disk) {
        Ok(()) => {}
        Err(stop) => return Err(stop),
    }
    send(sink, b"end\n")
}
