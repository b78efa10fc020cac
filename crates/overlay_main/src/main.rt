#![tactic(auto)]
// The program: reads a list from standard input, runs the overlay on lists of its own, and writes the answer.
ghost use Rattle.std.specs.Prelude.{◌≡◌, ◌≤◌};
ghost use Rattle.text.specs.Put.{Put};
ghost use Rattle.ending.specs.Lent.{lent};
ghost use Rattle.overlay_main.specs.Reply.{reply as reply_of};

use overlay::answer::Refusal;
use std::io;

fn main(rt: HostRuntime) -> io::Result<()> {
    // Room for 2,048 segments and more, so that an extra byte is noticed.
    let mut bytes = [0u8; 65536];
    let n = intake::read_full(&mut rt.reader(), &mut bytes)?;
    let mut input = [0i32; 12288];
    let mut work = [0i32; 12288];
    let mut marks = [0i32; 12288];
    let mut scan = [0i64; 6144];
    let mut masks = [0u8; 2048];
    let mut out = [0u8; 313386];
    let k = reply(
        &bytes[..n],
        &mut input,
        &mut work,
        &mut marks,
        &mut scan,
        &mut masks,
        &mut out,
    );
    rt.write_all(&out[..k])
}

// What is written for what was read: how many bytes, which then stand at the front of `out`. The lists are parameters of
// this function alone: a struct of them would be made once and taken apart once.
#[tactic(auto, unfolding(wire::specs::Asked::decoded_as, crate::specs::Reply::reply))]
fn reply(
    bytes: &[u8],
    input: &mut [i32],
    work: &mut [i32],
    marks: &mut [i32],
    scan: &mut [i64],
    masks: &mut [u8],
    out: &mut [u8],
) -> usize
    ensures put { Put out.old 0 (reply_of bytes.now input.old (lent work.old marks.old scan.old masks.old)) result out.new }
    ensures upper_bound { result ≤ 313386 }
{
    match wire::decode(bytes, input) {
        Some(settings) => {
            let a = run::overlay(input, settings, work, marks, scan, masks);
            text::write(a, work, masks, out)
        }
        None => text::write(Err(Refusal::Short), work, masks, out),
    }
}
