#![tactic(auto)]
// An answer as text, put into a list of bytes as far as there is room. Every function answers the place behind what it puts.
// `out` and `at` stay two parameters: a struct of them would hold a loan, and every function would have to promise besides that it is the same loan.
ghost use Rattle.std.specs.Prelude.{◌∷◌, [], ◌≡◌, ◌+◌, ◌*◌, ◌≤◌, nat_abs, length};
ghost use Rattle.whole.specs.Kind.{row_at};
ghost use Rattle.geom.specs.Rows.{segments};
ghost use Rattle.overlay.specs.Numbers.{told};
ghost use Rattle.text.specs.Put.{Put};
ghost use Rattle.text.specs.Text.{digits_within, number as number_of, spaced, line as line_of, lines_from, head as head_of, written};

use overlay::answer::Answer;

// The text of an answer, whose rows and bytes stand at the front of the lists. How many bytes it has: at most 313,386.
#[tactic(auto, using(crate::specs::PutLaws::put_none, crate::specs::PutLaws::put_more), unfolding(crate::specs::Text::written))]
pub fn write(a: Answer, rows: &[i32], bytes: &[u8], out: &mut [u8]) -> usize
    ensures put { Put out.old 0 (written (told a) rows.now bytes.now) result out.new }
    ensures upper_bound { result ≤ 313386 }
{
    let t = report::of(a);
    // `as`: there is no From of u64 into usize.
    let m = t.segments as usize;
    if m > 2048 || rows.len() < 6 * m || bytes.len() < m {
        return 0;
    }
    let at = head(out, t.answer, t.segments);
    lines(out, at, rows, &bytes[..m])
}

fn lines(out: &mut [u8], at: usize, rows: &[i32], bytes: &[u8]) -> usize
    requires at_bound { at ≤ 42 }
    requires bytes_bound { length bytes.now ≤ 2048 }
    requires bytes_have_rows { 6 * length bytes.now ≤ length rows.now }
    ensures put { Put out.old at (lines_from rows.now bytes.now 0 (length bytes.now)) result out.new }
    ensures upper_bound { result ≤ 42 + 153 * length bytes.now }
{
    let mut next = at;
    for (i, &byte) in bytes.iter().enumerate() {
        next = line(out, next, rows, i, byte);
    }
    next
}

fn head(out: &mut [u8], answer: u64, m: u64) -> usize
    ensures put { Put out.old 0 (head_of answer m) result out.new }
    ensures upper_bound { result ≤ 42 }
{
    let a = decimal(out, 0, answer, 20);
    let b = byte(out, a, b' ');
    let c = decimal(out, b, m, 20);
    byte(out, c, b'\n')
}

// Row number i and its byte.
fn line(out: &mut [u8], at: usize, rows: &[i32], i: usize, mask: u8) -> usize
    requires at_bound { at ≤ 1000000 }
    requires i_in_bounds { 6 * i + 6 ≤ length rows.now }
    ensures put { Put out.old at (line_of (row_at segments rows.now i) mask) result out.new }
    ensures upper_bound { result ≤ at + 153 }
{
    let v = places::read(rows, i);
    let a = pair(out, at, v.a.x.0, v.a.y.0);
    let b = pair(out, a, v.b.x.0, v.b.y.0);
    let c = pair(out, b, v.subject.0, v.clip.0);
    let d = decimal(out, c, u64::from(mask), 20);
    byte(out, d, b'\n')
}

fn pair(out: &mut [u8], at: usize, x: i32, y: i32) -> usize
    requires { at ≤ 1000100 }
    ensures put { Put out.old at (spaced (x ∷ y ∷ [])) result out.new }
    ensures upper_bound { result ≤ at + 44 }
{
    let a = number(out, at, x);
    let b = byte(out, a, b' ');
    let c = number(out, b, y);
    byte(out, c, b' ')
}

// With its sign where it is below zero.
#[tactic(auto, using(crate::specs::PutLaws::put_more), unfolding(crate::specs::Text::number))]
fn number(out: &mut [u8], at: usize, z: i32) -> usize
    requires { at ≤ 1000200 }
    ensures put { Put out.old at (number_of z) result out.new }
    ensures upper_bound { result ≤ at + 21 }
{
    let n = u64::from(z.unsigned_abs());
    if z < 0 {
        let a = byte(out, at, b'-');
        return decimal(out, a, n, 20);
    }
    decimal(out, at, n, 20)
}

// The decimal digits of a number that has at most k. By hand: std's `write!` says what it wrote only where it is `Ok`, and `write` cannot fail.
fn decimal(out: &mut [u8], at: usize, n: u64, k: usize) -> usize
    requires at_bound { at ≤ 1000300 }
    requires k_bound { k ≤ 20 }
    ensures put { Put out.old at (digits_within k n) result out.new }
    ensures upper_bound { result ≤ at + k }
{
    if k == 0 {
        return at;
    }
    if n < 10 {
        return byte(out, at, b'0' + n as u8);
    }
    let a = decimal(out, at, n / 10, k - 1);
    byte(out, a, b'0' + (n % 10) as u8)
}

// Stored if there is room.
fn byte(out: &mut [u8], at: usize, b: u8) -> usize
    requires { at ≤ 1000400 }
    ensures { Put out.old at (b ∷ []) result out.new }
{
    if at < out.len() {
        out[at] = b;
    }
    at + 1
}
