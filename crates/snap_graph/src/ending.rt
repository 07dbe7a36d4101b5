//! How a run ends.

use snap_base::Stop;
use snap_text::Units;

/// How a run ends.
#[derive(Debug, Drop)]
pub enum Ending {
    /// It came to its end.
    Done,
    /// A value was thrown and not caught; its text.
    Threw(Units),
    /// It stopped, for this reason and at this place: the offset, in the source of the code that ran, of the
    /// first token of the statement or expression at which it stopped, and 0 where none was being evaluated.
    Stopped(Stop, u32),
    /// Memory was refused.
    NoMemory,
}
