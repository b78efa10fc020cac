// The marks of a look in order, without repeats.
ghost use Rattle.std.specs.Prelude.{◌≡◌, ◌*◌, ◌≤◌, length};
ghost use Rattle.whole.specs.Distinct.{Dropped};
ghost use Rattle.whole.specs.Kind.{rows_from};
ghost use Rattle.split.specs.Marks.{marks as mark_rows};
ghost use Rattle.split.specs.Look.{same_mark};
ghost use Rattle.split.specs.Tidied.{tidy_answer, tidy_list};
ghost use Rattle.split.specs.Said.{tidy_says, tidy_said};

use crate::answer::TidyError;
use crate::mark;

// The first `count` marks, sorted by segment, x and y, lose their repeats where they stand: how many are left.
pub fn tidy(marks: &mut [i32], count: usize) -> Result<usize, TidyError>
    ensures value { result ≡ tidy_answer marks.old count }
    ensures result_value { tidy_says result ≡ tidy_said marks.old count }
    ensures marks_after { marks.new ≡ tidy_list result marks.old count }
{
    if rooms::mark_room(marks.len()) < count {
        return Err(TidyError::Short);
    }
    rows::sort(marks, count, 3);
    Ok(drop_repeats(marks, count))
}

// Each mark that differs from the one before it, in place: `kept` marks are written, and those from i on are as they were.
fn drop_repeats(marks: &mut [i32], count: usize) -> usize
    requires { 3 * count ≤ length marks.old }
    ensures { Dropped mark_rows same_mark marks.old count result marks.new }
{
    if count == 0 {
        return 0;
    }
    let mut last = mark::read(marks, 0);
    let mut kept: usize = 1;
    for i in 1..count {
        let m = mark::read(marks, i);
        if last != m {
            mark::write(marks, kept, m);
            last = m;
            kept += 1;
        }
    }
    kept
}
