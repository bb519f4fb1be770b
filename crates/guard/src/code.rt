// Withdrawn codes of the EAS list, and what is used in their place.
ghost use Rattle.std.specs.Prelude.{◌≡◌};
ghost use Rattle.guard.specs.Codes.{withdrawn_of};

use ascii::same_bytes;

// A code that is withdrawn, with its successor if it has one; of a code that is not withdrawn there is none of these.
#[derive(Clone, Copy, PartialEq, Eq, Debug)]
pub struct Withdrawal {
    pub successor: Option<[u8; 4]>,
}

// Each code with its successor. A static: a constant would be written out at each call.
static ROWS: [([u8; 4], Option<[u8; 4]>); 12] = [
    (*b"9901", Some(*b"0096")),
    (*b"9902", Some(*b"0184")),
    (*b"9904", Some(*b"0198")),
    (*b"9905", None),
    (*b"9906", Some(*b"0211")),
    (*b"9907", Some(*b"0210")),
    (*b"9917", Some(*b"0196")),
    (*b"9921", Some(*b"0201")),
    (*b"9954", Some(*b"0190")),
    (*b"9955", Some(*b"0007")),
    (*b"9956", Some(*b"0208")),
    (*b"9958", Some(*b"0204")),
];

pub fn withdrawn(code: &[u8]) -> Option<Withdrawal>
    ensures { result ≡ withdrawn_of code.now }
{
    for (old, successor) in &ROWS {
        if same_bytes(code, old) {
            return Some(Withdrawal {
                successor: *successor,
            });
        }
    }
    None
}
