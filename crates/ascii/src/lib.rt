// The classes of a byte or a code point: ASCII digits and letters, and lists of them.
#![tactic(auto)]

ghost use Rattle.std.specs.Prelude.{◌≡◌};
ghost use Rattle.ascii.specs.Class.{is_digit, is_letter, is_plain, among};
ghost use Rattle.ascii.specs.Written.{same_bytes};

// A byte as a code point: `u32::from`, by a name that says what for.
pub fn wide(b: u8) -> u32
    ensures { result ≡ b }
{
    u32::from(b)
}

// By its bounds: std's is_ascii_digit is of a byte or a char, and c is any code point.
pub fn is_digit(c: u32) -> bool
    ensures { result ≡ is_digit c }
{
    (48 <= c) & (c <= 57)
}

pub fn is_letter(c: u32) -> bool
    ensures { result ≡ is_letter c }
{
    ((65 <= c) & (c <= 90)) | ((97 <= c) & (c <= 122))
}

// A letter or a digit.
pub fn is_plain(c: u32) -> bool
    ensures { result ≡ is_plain c }
{
    is_digit(c) | is_letter(c)
}

// Whether c stands in a list. Without a way out of its loop the compiler compares several entries at once.
pub fn among(c: u32, list: &[u32]) -> bool
    ensures { result ≡ among c list.now }
{
    let mut found = false;
    for d in list {
        found |= *d == c;
    }
    found
}

// Whether two texts are the same, byte for byte, by the definition that schemes and codes are compared by. Not by `==`, which looks at four bytes
// at once: a code that begins with 0 is told from each of the withdrawn ones by its first byte.
pub fn same_bytes(a: &[u8], b: &[u8]) -> bool
    ensures { result ≡ same_bytes a.now b.now }
{
    a.len() == b.len() && a.iter().zip(b).all(|(x, y)| x == y)
}
