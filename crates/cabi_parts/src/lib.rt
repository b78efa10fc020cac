#![tactic(auto)]
// Single parts of the run for C and Rust, so that each can be timed alone. A refusal is false, 0 rows or 0 marks; the sweep answers by number.
ghost use Rattle.std.specs.Prelude.{cond, ◌≡◌, length};
ghost use Rattle.std.specs.Int.Signed.{lt_z};
ghost use Rattle.whole.specs.Kind.{rows_from};
ghost use Rattle.geom.specs.Rows.{segments};
ghost use Rattle.rows.specs.Sorted.{fitting, in_order};
ghost use Rattle.segm.specs.Merge.{merge_answer, merge_list};
ghost use Rattle.split.specs.Look.{look as marks_of};
ghost use Rattle.split.specs.Looked.{look_answer};
ghost use Rattle.pairwise.specs.Listed.{look_list};
ghost use Rattle.build.specs.Fill.{said, answer_of, fill_said};
ghost use Rattle.cabi_parts.specs.Parts.{rows_in, marks_in};

use build::sweep::FillError;
use segm::{MergeError, Merged};
use split::answer::LookError;

// The first n rows of six numbers in order.
#[unsafe(no_mangle)]
pub extern "C" fn ciwetanos_sort(work: &mut [i32], n: usize) -> bool
    ensures value { result ≡ fitting n 6 (length work.old) }
    ensures work_after { work.new ≡ cond result (in_order lt_z n 6 work.old) work.old }
{
    rows::sort(work, n, 6)
}

// Equal neighbours of the first n rows as one: how many are left.
#[unsafe(no_mangle)]
pub extern "C" fn ciwetanos_merge(work: &mut [i32], n: usize) -> usize
    ensures value { result ≡ rows_in (merge_answer work.old n) }
    ensures work_after { work.new ≡ merge_list work.old n }
{
    rows_in(segm::merge(work, n))
}

// One look at the first n rows, at the squared radius 2: how many marks it yields.
#[unsafe(no_mangle)]
pub extern "C" fn ciwetanos_look(work: &[i32], n: usize, marks: &mut [i32]) -> usize
    ensures value { result ≡ marks_in (look_answer 2 work.now n marks.old) }
    ensures marks_after { marks.new ≡ look_list (look_answer 2 work.now n marks.old) (marks_of 2 (rows_from segments work.now 0 n)) marks.old }
{
    marks_in(pairwise::look(work, n, 2, marks))
}

// The bytes of the first n rows: document 01's number of the answer.
#[unsafe(no_mangle)]
pub extern "C" fn ciwetanos_sweep(
    work: &[i32],
    n: usize,
    fill: u32,
    rule: u32,
    scan: &mut [i64],
    masks: &mut [u8],
) -> u64
    ensures { said result scan.new masks.new ≡ fill_said work.now n fill rule scan.old masks.old }
{
    number(build::sweep::fill(work, n, fill, rule, scan, masks))
}

fn rows_in(a: Result<Merged, MergeError>) -> usize
    ensures { result ≡ rows_in a }
{
    match a {
        Ok(merged) => merged.left,
        Err(_) => 0,
    }
}

fn marks_in(a: Result<usize, LookError>) -> usize
    ensures { result ≡ marks_in a }
{
    a.unwrap_or(0)
}

fn number(a: Result<(), FillError>) -> u64
    ensures { result ≡ answer_of a }
{
    match a {
        Ok(()) => 0,
        Err(FillError::Short) => 1,
        Err(FillError::BadRule) => 2,
        Err(FillError::OffGrid) => 3,
        Err(FillError::NoLength) => 4,
        Err(FillError::BadCount) => 5,
        Err(FillError::ScanFull) => 11,
    }
}
