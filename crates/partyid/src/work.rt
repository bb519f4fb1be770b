// Completing and listing, into an area that the caller lends.
ghost use Rattle.std.specs.Prelude.{length};
ghost use Rattle.corrections.specs.Completing.{completing};
ghost use Rattle.corrections.specs.Listing.{listing};
ghost use Rattle.partyid.specs.Plain.{Performed};

use super::plain::PartyidDone;

#[unsafe(no_mangle)]
pub extern "C" fn partyid_complete(scheme: &[u8], body: &[u8], out: &mut [u8]) -> PartyidDone
    ensures { Performed (completing scheme.now body.now (length out.old)) out.old result out.new }
{
    PartyidDone::from(corrections::complete(scheme, body, out))
}

#[unsafe(no_mangle)]
pub extern "C" fn partyid_list(scheme: &[u8], content: &[u8], out: &mut [u8]) -> PartyidDone
    ensures { Performed (listing scheme.now content.now (length out.old)) out.old result out.new }
{
    PartyidDone::from(corrections::list(scheme, content, out))
}
