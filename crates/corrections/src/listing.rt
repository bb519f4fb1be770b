// Listing: every correction of a refused number.
ghost use Rattle.std.specs.Prelude.{length};
ghost use Rattle.corrections.specs.Outcome.{Works};
ghost use Rattle.corrections.specs.Listing.{number_found, entries_of, listed_by, listed_for, listing};

use super::entries::put_corrections;
use super::five::{Five, five_of};
use super::number::Number;
use answer::Reason;
use figures::{passes, sum_of, weights_of};

// A number, by the total of its digits.
fn list_text(kind: Five, s: &[u8], out: &mut [u8]) -> Result<usize, Reason>
    ensures { Works (listed_by (number_found kind s.now) (entries_of kind s.now (length out.old))) out.old result out.new }
{
    let row = kind.row();
    let weights = weights_of(row.figure);
    let Ok(sum) = sum_of(row.figure, &weights, s, row.least, row.most, false) else {
        return Err(Reason::Form);
    };
    if passes(row.figure, sum) {
        return Err(Reason::Good);
    }
    let n = s.len();
    if out.len() < (2 * n - 1) * n {
        return Err(Reason::Room);
    }
    let number = Number {
        kind,
        weights: &weights,
        digits: s,
        sum,
    };
    let end = put_corrections(&number, out);
    Ok(end / n)
}

fn list_by(kind: Five, content: &[u8], out: &mut [u8]) -> Result<usize, Reason>
    ensures { Works (listed_for kind content.now (length out.old)) out.old result out.new }
{
    let mut area = [0u8; 1024];
    let n = text::normalize_into(content, &mut area)?;
    list_text(kind, text::first_bytes(&area, n), out)
}

// Writes every correction of a refused number at the area's start. The area has (2n - 1) * n bytes or more for a number of n digits.
pub fn list(scheme: &[u8], content: &[u8], out: &mut [u8]) -> Result<usize, Reason>
    ensures { Works (listing scheme.now content.now (length out.old)) out.old result out.new }
{
    let kind = five_of(scheme).ok_or(Reason::Scheme)?;
    list_by(kind, content, out)
}
