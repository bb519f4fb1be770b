// What the number of a text leaves by 97, from sums that are reduced only where the next step could pass 64 bits.
ghost use Rattle.std.specs.Prelude.{◌≡◌, true, ◌≤◌, ◌<◌, ◌%◌, length};
ghost use Rattle.ascii.specs.Class.{is_plain, all};
ghost use Rattle.accounts.specs.Spelled.{value_of, spell, remainder};
ghost use Rattle.accounts.specs.Inner.{after, Steps};

const LEAST_REDUCED: u64 = 100_000_000_000_000_000;

fn reduced(x: u64) -> u64
    ensures { (result % 97 ≡ x % 97) × (result < 100000000000000000) }
{
    if x < LEAST_REDUCED { x } else { x % 97 }
}

// What a digit or a letter of either case is read as.
#[tactic(auto, unfolding(ascii::specs::Class::is_plain, ascii::specs::Class::is_letter, ascii::specs::Class::is_digit, ascii::specs::Class::within, ascii::specs::Pick::pick, crate::specs::Spelled::value_of, crate::specs::Spelled::letter_value))]
fn value(b: u8) -> u64
    requires { is_plain b ≡ true }
    ensures { (result ≡ value_of b) × (result < 36) }
{
    let w = u64::from(b);
    match b {
        ..=b'9' => w - 48,
        ..=b'Z' => w - 55,
        _ => w - 87,
    }
}

// One byte more: a value below 10 is one decimal digit, any other two.
#[tactic(auto, using(crate::proofs::Remainder::step_one, crate::proofs::Remainder::step_two))]
fn step(acc: u64, b: u8) -> u64
    requires { is_plain b ≡ true }
    ensures { Steps acc b result }
{
    let x = reduced(acc);
    let v = value(b);
    if v < 10 { x * 10 + v } else { x * 100 + v }
}

// A number that leaves what the digits of `start`, followed by those of the text, leave.
#[tactic(auto, using(ascii::proofs::Class::all_at, crate::proofs::Remainder::spell_step, crate::proofs::Remainder::spell_end))]
fn leave(start: u64, text: &[u8]) -> u64
    requires { all is_plain text.now ≡ true }
    ensures { result % 97 ≡ after start (spell text.now) }
{
    let mut acc = start;
    for b in text {
        acc = step(acc, *b);
    }
    acc
}

// What the text's number leaves, where the part that is read first begins at `from`.
#[tactic(auto, using(crate::proofs::Remainder::leaves, ascii::proofs::Class::all_take, ascii::proofs::Class::all_drop))]
pub(crate) fn remainder(text: &[u8], from: usize) -> u64
    requires { (4 ≤ from) × (from ≤ length text.now) × (all is_plain text.now ≡ true) }
    ensures { result ≡ remainder from text.now }
{
    let a = leave(0, &text[from..]);
    leave(a, &text[..4]) % 97
}
