// Withdrawn codes.
use std::io;

pub fn show_code(rt: &impl Print, code: &[u8]) -> io::Result<()> {
    let Some(withdrawal) = guard::withdrawn(code) else {
        return rt.write_all(b" not withdrawn");
    };
    rt.write_all(b" withdrawn")?;
    if let Some(successor) = withdrawal.successor {
        rt.write_all(b", use ")?;
        rt.write_all(&successor)?;
    }
    Ok(())
}
