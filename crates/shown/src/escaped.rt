// Bytes as they are written.
use std::io;

// A byte as it is written: itself where it is plain ASCII and no backslash, else escaped.
fn show_byte(rt: &impl Print, b: u8) -> io::Result<()> {
    match b {
        b' '..=b'[' | b']'..=b'~' => rt.write_all(&[b]),
        _ => print!(rt; "\\{b:02x}"),
    }
}

pub fn show(rt: &impl Print, s: &[u8]) -> io::Result<()> {
    for b in s {
        show_byte(rt, *b)?;
    }
    Ok(())
}
