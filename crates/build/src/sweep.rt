// The sweep: each segment gets its byte, node by node in list order.
ghost use Rattle.std.specs.Prelude.{◌≡◌, ◌+◌, ◌-◌, ◌*◌, ◌≤◌, ◌<◌, length};
ghost use Rattle.std.proofs.lemmas.List.Edits.{sets};
ghost use Rattle.whole.specs.Kind.{rows_from};
ghost use Rattle.whole.specs.Sum.{All};
ghost use Rattle.geom.specs.Limits.{scan_room};
ghost use Rattle.geom.specs.Rows.{segments};
ghost use Rattle.scan.specs.Scan.{entries, EntryOf, OnGrids};
ghost use Rattle.build.specs.declared.sweep.FillError.TheVariants.{BadRule};
ghost use Rattle.build.specs.Sweep.{ordered, NodeEnd, Ready, bytes_by, Swept};
ghost use Rattle.masks.specs.Rules.{fill_number, overlay_number};
ghost use Rattle.build.specs.Fill.{fill_says, fill_said};

use masks::Rules;
use scan::nodes::Node;

// Why the masks hold no bytes.
#[derive(Clone, Copy, Debug, PartialEq, Eq)]
pub enum FillError {
    // 1: n is over the limit, or a list is too short for n.
    Short,
    // 2: a rule number is out of range.
    BadRule,
    // 3: a coordinate is off the grid.
    OffGrid,
    // 4: a segment has no length.
    NoLength,
    // 5: a count is -2^31.
    BadCount,
    // 11: more segments are live than the scan list has room for.
    ScanFull,
}

impl From<fills::BadRule> for FillError {
    ghost from_gives = { λ _ e. e ≡ BadRule };

    fn from(_: fills::BadRule) -> FillError {
        FillError::BadRule
    }
}

impl From<rules::BadRule> for FillError {
    ghost from_gives = { λ _ e. e ≡ BadRule };

    fn from(_: rules::BadRule) -> FillError {
        FillError::BadRule
    }
}

// The byte of each of the n segments, for any list that is not refused, in order or not, settled or not.
// The rules come as numbers: a caller may give any, and one that is no rule's is refused with 2.
pub fn fill(
    work: &[i32],
    n: usize,
    fill: u32,
    rule: u32,
    scan: &mut [i64],
    masks: &mut [u8],
) -> Result<(), FillError>
    ensures { fill_says result scan.new masks.new ≡ fill_said work.now n fill rule scan.old masks.old }
{
    if crate::check::is_short(n, work.len(), masks.len()) {
        return Err(FillError::Short);
    }
    let rules = crate::check::rules(fill, rule)?;
    if faults::some_row(work, n, faults::is_off) {
        return Err(FillError::OffGrid);
    }
    if faults::some_row(work, n, faults::is_point) {
        return Err(FillError::NoLength);
    }
    if faults::some_row(work, n, faults::has_least) {
        return Err(FillError::BadCount);
    }
    masks.fill(0);
    let swept = sweep(work, n, rules, scan, masks);
    scan.fill(0);
    if swept.is_err() {
        masks.fill(0);
    }
    swept
}

// The bytes, or 11: more are live after some node than there is room for.
fn sweep(
    work: &[i32],
    n: usize,
    rules: Rules,
    scan: &mut [i64],
    masks: &mut [u8],
) -> Result<(), FillError>
    requires n_in_bounds { (6 * n ≤ length work.now) × (n ≤ 2048) × (n ≤ length masks.old) }
    requires on_grids { OnGrids work.now n }
    ensures { Swept (fill_number rules) (overlay_number rules) (scan_room (length scan.old)) (rows_from segments work.now 0 n) scan.old masks.old result scan.new masks.new }
{
    let room = rooms::scan_room(scan.len());
    let sorted = in_order(work, n);
    let mut used: usize = 0;
    let mut i: usize = 0;
    while i < n {
        let e = node_end(work, n, i);
        let v = places::read(work, i);
        let node = scan::nodes::arrive(work, n, scan, room, used, i, e, v.a, sorted);
        used = node.used;
        if room < used {
            return Err(FillError::ScanFull);
        }
        write_bytes(work, n, rules, scan, node, masks, i, e);
        i = e;
    }
    Ok(())
}

// Whether no segment starts before the one that stands before it: a run's list never does.
fn in_order(work: &[i32], n: usize) -> bool
    requires { 6 * n ≤ length work.now }
    ensures { result ≡ ordered (rows_from segments work.now 0 n) }
{
    for i in 1..n {
        let u = places::read(work, i - 1);
        let v = places::read(work, i);
        if v.a < u.a {
            return false;
        }
    }
    true
}

// Where the node that starts at i ends.
fn node_end(work: &[i32], n: usize, i: usize) -> usize
    requires n_in_bounds { 6 * n ≤ length work.now }
    requires i_lt_n { i < n }
    ensures { NodeEnd work.now n i result }
{
    let v = places::read(work, i);
    for j in i + 1..n {
        let t = places::read(work, j);
        if v.a != t.a {
            return j;
        }
    }
    n
}

// The bytes of the node's segments, from i to e, by the entries in use.
fn write_bytes(
    work: &[i32],
    n: usize,
    rules: Rules,
    scan: &[i64],
    node: Node,
    masks: &mut [u8],
    i: usize,
    e: usize,
)
    requires n_in_bounds { 6 * n ≤ length work.now }
    requires on_grids { OnGrids work.now n }
    requires used_in_bounds { (3 * node.used ≤ length scan.now) × (node.used ≤ 2048) }
    requires all { All (EntryOf work.now n) (rows_from entries scan.now 0 node.used) }
    requires ready { Ready work.now scan.now node i e }
    requires i_le_e { (i ≤ e) × (e ≤ n) × (n ≤ length masks.old) }
    ensures { masks.new ≡ sets masks.old i (bytes_by (fill_number rules) (overlay_number rules) work.now (rows_from entries scan.now 0 node.used) (rows_from segments work.now i (e - i))) }
{
    for k in i..e {
        let v = places::read(work, k);
        let s = scan::sums::sums_below(work, n, scan, node.used, node.known, node.sums, v);
        masks[k] = rules.byte(s, v);
    }
}
