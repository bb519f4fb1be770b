// The content of a field: its code points, its white points, and its text.
ghost use Rattle.std.specs.Prelude.{◌≡◌, drop};
ghost use Rattle.text.specs.Utf8.{step_of};
ghost use Rattle.text.specs.White.{is_white};
ghost use Rattle.text.specs.Answer.{normal_text, stripped_text};
ghost use Rattle.partyid.specs.Plain.{plain_point, Shown};

use super::plain::{PartyidPoint, PartyidText};

#[unsafe(no_mangle)]
pub extern "C" fn partyid_decode(content: &[u8], at: usize) -> PartyidPoint
    ensures { result ≡ plain_point (step_of (drop at content.now)) }
{
    PartyidPoint::from(text::decode(content, at))
}

#[unsafe(no_mangle)]
pub extern "C" fn partyid_is_white(c: u32) -> bool
    ensures { result ≡ is_white c }
{
    text::is_white(c)
}

#[unsafe(no_mangle)]
pub extern "C" fn partyid_normalize_space(content: &[u8], area: &mut [u8; 1024]) -> PartyidText
    ensures { Shown (normal_text content.now) result area.new }
{
    PartyidText::from(text::normalize_into(content, area))
}

#[unsafe(no_mangle)]
pub extern "C" fn partyid_strip(content: &[u8], area: &mut [u8; 1024]) -> PartyidText
    ensures { Shown (stripped_text content.now) result area.new }
{
    PartyidText::from(text::strip_into(content, area))
}
