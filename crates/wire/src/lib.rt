#![tactic(auto)]
// The bytes that the program reads, on a slice: a list asked for, taken apart.
ghost use Rattle.std.specs.Prelude.{◌≡◌, ◌+◌, ◌*◌, ◌≤◌, length};
ghost use Rattle.std.proofs.lemmas.List.Edits.{sets};
ghost use Rattle.wire.specs.Bytes.{word_at, signed as signed_of, numbers_from};
ghost use Rattle.wire.specs.Asked.{decoded_as, decoded_list};

use checks::Settings;

// Takes apart what was read: one version byte 1, then big-endian four-byte numbers. What is asked, and its segments are then the first rows of
// the input list; or nothing: another version, too many segments, missing or extra bytes, or no room for the segments.
#[tactic(auto, unfolding(crate::specs::Asked::is_taken, crate::specs::Asked::decoded_as, crate::specs::Asked::decoded_list))]
pub fn decode(bytes: &[u8], input: &mut [i32]) -> Option<Settings>
    ensures value { result ≡ decoded_as bytes.now (length input.old) }
    ensures input_after { input.new ≡ decoded_list bytes.now input.old }
{
    if bytes.len() < 17 {
        return None;
    }
    // `as`: there is no From of u32 into usize.
    let n = word(bytes, 1) as usize;
    if bytes.len() != 17 + 24 * n || bytes[0] != 1 || n > 2048 || input.len() < 6 * n {
        return None;
    }
    let settings = Settings {
        n,
        fill: word(bytes, 5),
        rule: word(bytes, 9),
        budget: word(bytes, 13),
    };
    numbers(bytes, &mut input[..6 * n]);
    Some(settings)
}

// The input becomes the numbers of the bytes from place 17 on.
#[tactic(auto, unfolding(crate::specs::Bytes::numbers_from))]
fn numbers(bytes: &[u8], input: &mut [i32])
    requires { 17 + 4 * length input.old ≤ length bytes.now }
    ensures { input.new ≡ numbers_from bytes.now 17 (length input.old) }
{
    for (i, number) in input.iter_mut().enumerate() {
        *number = signed(word(bytes, 17 + 4 * i));
    }
}

// The big-endian number of the four bytes from place k on.
fn word(bytes: &[u8], k: usize) -> u32
    requires { k + 4 ≤ length bytes.now }
    ensures { result ≡ word_at bytes.now k }
{
    u32::from_be_bytes([bytes[k], bytes[k + 1], bytes[k + 2], bytes[k + 3]])
}

// The same bits in two's complement.
#[tactic(auto, unfolding(crate::specs::Bytes::signed))]
pub fn signed(u: u32) -> i32
    ensures { result ≡ signed_of u }
{
    u.cast_signed()
}
