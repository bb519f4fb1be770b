// Normalised and stripped texts, and the steps of decoding.
use super::escaped::show;
use std::io;
use text::{Point, Text};

// The first n bytes of an area, and a word if anything but zeros stands after them.
fn show_area(rt: &impl Print, area: &[u8], n: usize) -> io::Result<()> {
    let Some((text, rest)) = area.split_at_checked(n) else {
        return Ok(());
    };
    rt.write_all(b" ")?;
    show(rt, text)?;
    if rest.iter().any(|b| *b != 0) {
        return rt.write_all(b" and more");
    }
    Ok(())
}

pub fn show_text(rt: &impl Print, t: Text) -> io::Result<()> {
    let (reason, len) = match t.kept {
        Ok(len) => (0, len),
        Err(reason) => (u32::from(reason), 0),
    };
    print!(rt; " {reason} {len}")?;
    show_area(rt, &t.bytes, len)
}

// The step of decoding that begins at a place: the code point and its length, and whether it is white; or a refusal.
fn show_step(rt: &impl Print, content: &[u8], at: usize) -> io::Result<()> {
    let Some(Point { code, len }) = text::decode(content, at) else {
        return rt.write_all(b" refused");
    };
    print!(rt; " {code:04x}/{len}")?;
    if text::is_white(code) {
        rt.write_all(b"/white")?;
    }
    Ok(())
}

// At each place, and at the end.
pub fn show_steps(rt: &impl Print, content: &[u8]) -> io::Result<()> {
    for at in 0..=content.len() {
        show_step(rt, content, at)?;
    }
    Ok(())
}
