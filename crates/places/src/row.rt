// A record as a row of numbers of a lent list: row number i starts at place WIDTH * i.
ghost use Rattle.std.specs.Prelude.{◌≡◌, cond, ℕ, List, ltb, ◌+◌, ◌*◌, ◌^◌, ◌≤◌, ◌<◌, length, drop};
ghost use Rattle.std.proofs.lemmas.List.Edits.{sets};

pub trait Row: Copy {
    type Number: Copy;

    ghost WIDTH: { ℕ };

    const WIDTH: usize;

    // The record whose numbers stand at the front of a list.
    ghost make: { List Self.Number → Self };

    // Its numbers.
    ghost numbers: { Self → List Self.Number };

    fn from_front(row: &[Self::Number]) -> Self
        requires { WIDTH ≤ length row.now }
        ensures { result ≡ make row.now };

    fn put_front(self, row: &mut [Self::Number])
        requires { WIDTH ≤ length row.old }
        ensures { row.new ≡ sets row.old 0 (numbers self) };
}

// Row number i.
pub fn read<R: Row>(rows: &[R::Number], i: usize) -> R
    requires { R.WIDTH * i + R.WIDTH ≤ length rows.now }
    ensures { result ≡ R.make (drop (R.WIDTH * i) rows.now) }
{
    R::from_front(&rows[R::WIDTH * i..])
}

// The record v becomes row number i.
#[tactic(auto, using(crate::proofs::Stores::put_mid_sets))]
pub fn write<R: Row>(rows: &mut [R::Number], i: usize, v: R)
    requires { R.WIDTH * i + R.WIDTH ≤ length rows.old }
    ensures { rows.new ≡ sets rows.old (R.WIDTH * i) (R.numbers v) }
{
    v.put_front(&mut rows[R::WIDTH * i..])
}

// One more comes, and is kept if there is room for it.
pub fn push<R: Row>(rows: &mut [R::Number], room: usize, count: usize, v: R) -> usize
    requires room_in_bounds { R.WIDTH * room ≤ length rows.old }
    requires count_bound { count + 1 < 2 ^ 64 }
    ensures number { result ≡ count + 1 }
    ensures kept { rows.new ≡ cond (ltb count room) (sets rows.old (R.WIDTH * count) (R.numbers v)) rows.old }
{
    if count < room {
        write(rows, count, v);
    }
    count + 1
}
