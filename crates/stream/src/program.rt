// The program's turn: whole lines, and in the end the last one and the counts.
ghost use Rattle.std.specs.Prelude.{◌≡◌, ◌+◌, take};
ghost use Rattle.stream.specs.Turn.{TurnRight};

use super::window::{Stepped, close, step};

// The bytes that the end takes at most: an answer, and the text of the tally.
const CLOSING_ROOM: usize = 786;

// Not an Option of what is kept: TurnRight says what is kept where the turn is over, too.
#[derive(Clone, Copy)]
pub struct Turned {
    pub kept: usize,
    pub put: usize,
    pub over: bool,
}

// The areas and lengths stand by themselves and in no struct: the promise names each of them, and a program lends its own.
// One turn: buf[..kept + fresh] is input that is not answered yet, of which `fresh` bytes were just read; none means that the input
// has ended. Stores the answers to its whole lines at the start of out, counts them, and moves what is kept of the rest to the start of buf. Where the
// input has ended and no whole line is answered, it is over, and where out has room for
// both it answers the last line, which no newline ends, and stores the text of the tally.
pub fn turn(
    buf: &mut [u8],
    kept: usize,
    fresh: usize,
    out: &mut [u8],
    counts: &mut [u32; 53],
) -> Turned
    ensures { TurnRight (take (kept + fresh) buf.old) fresh buf.old buf.new out.old out.new counts.old counts.new result.kept result.put result.over }
{
    let n = kept.saturating_add(fresh).min(buf.len());
    let Stepped { kept: next, put } = step(buf, n, out, counts);
    let over = (fresh == 0) & (put == 0);
    let closes = over & (CLOSING_ROOM <= out.len());
    if closes {
        let end = close(&buf[..next], out, counts);
        return Turned {
            kept: next,
            put: end,
            over,
        };
    }
    Turned {
        kept: next,
        put,
        over,
    }
}
