#![tactic(auto)]
// Lent lists set wholly to zero, as refusals 7 to 11 leave them: std's `fill`, promised in the definitions' words.
ghost use Rattle.std.specs.Prelude.{◌≡◌, length, replicate, pos};

pub fn clear_i32(numbers: &mut [i32])
    ensures { numbers.new ≡ replicate (length numbers.old) (pos 0) }
{
    numbers.fill(0);
}

pub fn clear_i64(longs: &mut [i64])
    ensures { longs.new ≡ replicate (length longs.old) (pos 0) }
{
    longs.fill(0);
}

pub fn clear_u8(bytes: &mut [u8])
    ensures { bytes.new ≡ replicate (length bytes.old) 0 }
{
    bytes.fill(0);
}
