// The groups of a codice fiscale.
ghost use Rattle.std.specs.Prelude.{◌≡◌, Ok, Err};
ghost use Rattle.ascii.specs.Pick.{pick};
ghost use Rattle.ascii.specs.Class.{is_letter, all};
ghost use Rattle.forms.specs.declared.form.Fault.TheVariants.{At};
ghost use Rattle.codice.specs.Codice.{groups_of16, codice_fault};
ghost use Rattle.codice.specs.Inner.{Answered};

use super::integer::castable_integer;
use super::points::take_points;
use ascii::{is_digit, is_letter};
use forms::Fault;

#[tactic(auto, unfolding(ascii::specs::Class::all))]
fn all_letters(p: &[u32]) -> bool
    ensures { result ≡ all is_letter p.now }
{
    p.iter().all(|c| is_letter(*c))
}

// A group whose first byte is at a place.
#[tactic(auto, unfolding(ascii::specs::Pick::pick))]
fn passes(good: bool, at: usize) -> Result<(), Fault>
    ensures { result ≡ pick good (Ok tt) (Err (At at)) }
{
    if good { Ok(()) } else { Err(Fault::At(at)) }
}

// The groups of 16 code points, one after another.
fn failing_group(p: &[u32; 16], places: &[usize; 16]) -> Result<(), Fault>
    ensures { Answered groups_of16 p.now places.now result }
{
    passes(all_letters(&p[0..6]), places[0])?;
    passes(castable_integer(&p[6..8]), places[6])?;
    passes(is_letter(p[8]), places[8])?;
    passes(castable_integer(&p[9..11]), places[9])?;
    passes(is_digit(p[14]), places[14])?;
    passes(is_letter(p[15]), places[15])
}

// What is wrong with a text by rules 45 and 46.
#[tactic(auto, using(crate::proofs::Walk::eleven, crate::proofs::Walk::another))]
pub fn codice_fiscale(text: &[u8]) -> Result<(), Fault>
    ensures { result ≡ codice_fault text.now }
{
    let mut p = [0u32; 16];
    let mut places = [0usize; 16];
    match take_points(text, &mut p, &mut places) {
        Some(16) => failing_group(&p, &places),
        Some(11) => passes(castable_integer(&p[0..11]), places[0]),
        _ => Err(Fault::Length),
    }
}
