// Completing and listing, in an area of dots, which is shown whole.
use answer::Reason;
use shown::{decimal_up_to, show, split_word};
use std::io;

// The room, the scheme and the content, parted by spaces.
pub(crate) fn show_work<F: FnOnce(&[u8], &[u8], &mut [u8]) -> Result<usize, Reason>>(
    rt: &impl Print,
    field: &[u8],
    work: F,
) -> io::Result<()>
    requires { F.IsAlwaysCallable work }
{
    let (room, rest) = split_word(field);
    let (scheme, content) = split_word(rest);
    let mut dots = [b'.'; 1024];
    let area = &mut dots[..decimal_up_to(room, 1024)];
    match work(scheme, content, area) {
        Ok(count) => print!(rt; " 0 {count} ")?,
        Err(reason) => print!(rt; " {} 0 ", u32::from(reason))?,
    }
    show(rt, area)
}
