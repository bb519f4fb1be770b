// UTF-8 text in a working area: one decoding step, the white points, stripping and normalising.
#![tactic(auto)]

mod area;
mod read;
mod reading;
mod space;
mod utf8;
mod white;

pub use area::{Text, first_bytes};
pub use read::readable;
pub use reading::Reading;
pub use space::{normalize_into, normalize_space, strip, strip_into};
pub use utf8::{Point, decode};
pub use white::is_white;
