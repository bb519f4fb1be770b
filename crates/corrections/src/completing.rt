// Completing: the check digit or check pair of a body.
ghost use Rattle.std.specs.Prelude.{◌≡◌, ◌≤◌, length};
ghost use Rattle.corrections.specs.Outcome.{success, Works};
ghost use Rattle.corrections.specs.Completing.{completed_by, completing};

use super::five::{Five, five_of};
use answer::Reason;
use figures::{figure_for, sum_of, weights_of};

// A figure at the area's start.
fn put_figure(figure: &[u8], out: &mut [u8]) -> usize
    requires { length figure.now ≤ length out.old }
    ensures { Works (success (length figure.now) figure.now) out.old (Ok result) out.new }
{
    let n = figure.len();
    out[..n].copy_from_slice(figure);
    n
}

fn complete_by(kind: Five, body: &[u8], out: &mut [u8]) -> Result<usize, Reason>
    ensures { Works (completed_by kind body.now (length out.old)) out.old result out.new }
{
    let row = kind.row();
    let weights = weights_of(row.figure);
    let Ok(total) = sum_of(
        row.figure,
        &weights,
        body,
        row.shortest,
        row.longest,
        !row.pair,
    ) else {
        return Err(Reason::Form);
    };
    let check = figure_for(row.figure, total)?;
    if out.len() < 2 {
        return Err(Reason::Room);
    }
    let check = check as u8;
    if row.pair {
        return Ok(put_figure(&[check / 10 + b'0', check % 10 + b'0'], out));
    }
    Ok(put_figure(&[check + b'0'], out))
}

// Writes the figure that completes a body at the area's start: one digit, or two for 0208 and 0151. The area has 2 bytes or more.
pub fn complete(scheme: &[u8], body: &[u8], out: &mut [u8]) -> Result<usize, Reason>
    ensures { Works (completing scheme.now body.now (length out.old)) out.old result out.new }
{
    let kind = five_of(scheme).ok_or(Reason::Scheme)?;
    complete_by(kind, body, out)
}
