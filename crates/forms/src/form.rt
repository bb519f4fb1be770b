// A form is data, and one function finds the first fault.
ghost use Rattle.std.specs.Prelude.{◌≡◌};
ghost use Rattle.forms.specs.Form.{of_class, class_at, wrong, fault_of, form_from};

use ascii::{is_digit, is_letter, is_plain, wide};
use std::cmp::min;

// What is wrong with a text by a form: its length, or the first place whose byte is not of its class.
#[derive(Clone, Copy, PartialEq, Eq, Debug)]
pub enum Fault {
    Length,
    At(usize),
}

// Whether a byte is of a class: `#` a digit, `&` a letter, `*` a letter or a digit, any other byte itself. By the
// classes of ascii, which the definition names too.
#[tactic(auto, using(crate::proofs::Laws::class_digit, crate::proofs::Laws::class_letter, crate::proofs::Laws::class_plain, crate::proofs::Laws::class_self))]
fn of_class(class: u8, b: u8) -> bool
    ensures { result ≡ of_class class b }
{
    match class {
        b'#' => is_digit(wide(b)),
        b'&' => is_letter(wide(b)),
        b'*' => is_plain(wide(b)),
        _ => b == class,
    }
}

// The first place whose byte is not of its class.
fn first_wrong(head: &[u8], rest: u8, text: &[u8]) -> Result<(), Fault>
    ensures { result ≡ wrong (class_at head.now rest) 0 text.now }
{
    let front = min(head.len(), text.len());
    if let Some(k) = head
        .iter()
        .zip(text)
        .position(|(class, b)| !of_class(*class, *b))
    {
        return Err(Fault::At(k));
    }
    match text[front..].iter().position(|b| !of_class(rest, *b)) {
        Some(k) => Err(Fault::At(front + k)),
        None => Ok(()),
    }
}

// What is wrong with a text by the form of a head, the class of every byte after it, a least and a most length.
#[tactic(auto, using(crate::proofs::Laws::fault_short, crate::proofs::Laws::fault_long, crate::proofs::Laws::fault_inside))]
pub fn fault_of(head: &[u8], rest: u8, least: usize, most: usize, text: &[u8]) -> Result<(), Fault>
    ensures { result ≡ fault_of (form_from head.now rest least most) text.now }
{
    if text.len() < least || most < text.len() {
        return Err(Fault::Length);
    }
    first_wrong(head, rest, text)
}
