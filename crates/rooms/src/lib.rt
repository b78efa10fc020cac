#![tactic(auto)]
// How much a lent list has room for: its whole entries, cut to the limit. A list is told by how many numbers it has.
ghost use Rattle.std.specs.Prelude.{◌≡◌};
ghost use Rattle.geom.specs.Limits.{work_room, mark_room, scan_room};

const SEGMENT_LIMIT: usize = 2048;

const MARK_LIMIT: usize = 65536;

const SCAN_LIMIT: usize = 2048;

// Segments in a work list.
pub fn work_room(numbers: usize) -> usize
    ensures { result ≡ work_room numbers }
{
    SEGMENT_LIMIT.min(numbers / 6)
}

// Marks in a mark list.
pub fn mark_room(numbers: usize) -> usize
    ensures { result ≡ mark_room numbers }
{
    MARK_LIMIT.min(numbers / 3)
}

// Entries in a scan list.
pub fn scan_room(numbers: usize) -> usize
    ensures { result ≡ scan_room numbers }
{
    SCAN_LIMIT.min(numbers / 3)
}
