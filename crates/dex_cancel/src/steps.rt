//! The steps of a cancel, for a crate that finds its orders in another way.

pub use crate::applying::{cancel_by_id, cancel_maybe};
pub use crate::counting::count_before;
pub use crate::deciding::with_room;
pub use crate::finding::find_on;
pub use crate::found::{Found, older_of};
pub use crate::taking::take_off;
