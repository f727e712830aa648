// What follows the end of a read.

use ceal_code::waits::Floor;
use ceal_order::stamp::Stamp;

/// What follows the end of a read. A unit runs with nodes left over up to the limit that the repair has. The units
/// below are set aside on a floor of the stack.
#[derive(Clone, Copy)]
pub enum Frame {
    /// the read is new: the units below run, with what its own leave over
    Begun { below: Floor, read: Stamp },
    /// the read was taken: the units below run, with the nodes after its end, up to this limit
    Taken { below: Floor, limit: Stamp },
    /// the read was stale among nodes that are kept: those after its end are passed, up to this limit
    Kept { until: Stamp },
}
