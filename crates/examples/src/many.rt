// Many lines at once, in an area of numbers, which is shown whole.
use batch::Batch;
use shown::{decimal_up_to, split_word};
use std::io;

pub(crate) fn show_numbers(rt: &impl Print, numbers: &[u32]) -> io::Result<()> {
    for n in numbers {
        print!(rt; " {n}")?;
    }
    Ok(())
}

// The room and the text, parted by a space. The area is of so many numbers that no answer has.
fn show_lines<F: FnOnce(&[u8], &mut [u32]) -> Batch>(
    rt: &impl Print,
    field: &[u8],
    answer: F,
) -> io::Result<()>
    requires { F.IsAlwaysCallable answer }
{
    let (room, text) = split_word(field);
    let mut numbers = [999u32; 64];
    let area = &mut numbers[..decimal_up_to(room, 64)];
    let done = answer(text, area);
    print!(rt; " {} {}", done.count, done.used)?;
    show_numbers(rt, area)
}

pub(crate) fn show_batch(rt: &impl Print, field: &[u8]) -> io::Result<()> {
    show_lines(rt, field, |text, area| batch::answer_lines(text, area))
}

// The same lines fed to a tally, and its counts.
pub(crate) fn show_tallied(rt: &impl Print, field: &[u8]) -> io::Result<()> {
    let mut counts = tally::fresh();
    show_lines(
        rt,
        field,
        |text, area| batch::tally_lines(text, &mut counts, area),
    )?;
    show_numbers(rt, &counts)
}
