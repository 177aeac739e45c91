//! The configuration of the console, as bytes (VIRTIO 1.2, 5.3.4).

ghost use Rattle.std.specs.Prelude.{◌≡◌, length, slice_index};
ghost use Rattle.dev_core.specs.Config.{bytes_at, console_configuration, covers};

use byteorder::{ByteOrder, LittleEndian};

/// The bytes of the console's configuration: le16 cols, le16 rows, le32 max_nr_ports, le32 emerg_wr, which reads 0.
pub fn console_configuration(cols: u16, rows: u16) -> [u8; 12]
    ensures { result ≡ console_configuration cols rows }
{
    let mut bytes = [0u8; 12];
    LittleEndian::write_u16(&mut bytes, cols);
    LittleEndian::write_u16(&mut bytes[2..], rows);
    LittleEndian::write_u32(&mut bytes[4..], 1);
    bytes
}

/// The byte at a location; 0 past their end.
fn byte_at(bytes: &[u8], at: usize) -> u8
    ensures { result ≡ slice_index bytes.now at }
{
    bytes.get(at).copied().unwrap_or(0)
}

/// Fills a room with the bytes from a location on, and with zeros past their end.
pub fn read_at(bytes: &[u8], at: u32, room: &mut [u8])
    ensures { room.new ≡ bytes_at bytes.now at (length room.old) }
{
    let at = at as usize;
    'room: for i in 0..room.len() {
        room[i] = byte_at(bytes, at + i);
    }
}

/// Whether bytes that are written from a location on cover so many from another.
pub fn is_covered(at: u32, bytes: &[u8], from: u32, count: u32) -> bool
    ensures { result ≡ covers at bytes.now from count }
{
    let end = u64::from(at) + bytes.len() as u64;
    at <= from && u64::from(from) + u64::from(count) <= end
}
