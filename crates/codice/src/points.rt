// The code points of a text, and where they stand.
ghost use Rattle.codice.specs.Inner.{Taken};

use text::decode;

// Puts the numbers and the places of a text's code points into two areas, and tells how many it has, where it is well-formed and has at
// most 16. An integer text is read from the numbers alone (`castable_integer`), so the places stand apart.
#[tactic(auto, using(crate::proofs::Walk::begin, crate::proofs::Walk::finish, crate::proofs::Walk::turn))]
pub(crate) fn take_points(
    s: &[u8],
    codes: &mut [u32; 16],
    places: &mut [usize; 16],
) -> Option<usize>
    ensures { Taken s.now codes.new places.new result }
{
    let mut at: usize = 0;
    for n in 0..16 {
        if s.len() <= at {
            return Some(n);
        }
        let point = decode(s, at)?;
        codes[n] = point.code;
        places[n] = at;
        at += point.len;
    }
    if s.len() <= at { Some(16) } else { None }
}
