#![tactic(auto)]
// Stored cases, as text: whole numbers with white space between them (rust/README.md, "Stored cases"). Each is run again, and the answer and
// every number of the lists that were lent are compared with what is stored.
use checks::Settings;
use report::Report;
use std::fmt;
use std::io::{self, Write};

mod read;

use read::Words;

// How many cases there are, how many of them come out as stored, the number of the first that does not, and whether nothing is left of the text.
#[derive(Clone, Copy)]
struct Tally {
    cases: usize,
    equal: usize,
    first_different: Option<usize>,
    is_whole: bool,
}

// Lengths of lists.
#[derive(Clone, Copy)]
struct Lengths {
    work: usize,
    marks: usize,
    scan: usize,
    masks: usize,
    input: usize,
}

// The lists that a run is lent.
#[derive(Drop)]
struct Lists<'a> {
    work: &'a mut [i32],
    marks: &'a mut [i32],
    scan: &'a mut [i64],
    masks: &'a mut [u8],
}

// Reads a text of stored cases from standard input, runs them, and writes what comes of it. The zeros behind the text are white space.
pub fn run_all<R: Input + Print>(rt: &R) -> io::Result<()> {
    let mut text = [0; 262144];
    intake::read_full(&mut rt.reader(), &mut text)?;
    let tally = replay(&text);
    // Part by part, and not by `print!`, which writes the whole at once: of an answer that there is no room for, the parts that fit are written.
    write!(io::writer(rt), "{tally}")
}

fn replay(text: &[u8]) -> Tally {
    let mut words = Words::new(text);
    let cases = words.size() as usize;
    let mut equal = 0;
    let mut first_different = None;
    for i in 0..cases {
        if is_as_stored(&mut words) {
            equal += 1;
        } else {
            first_different = first_different.or(Some(i + 1));
        }
    }
    Tally {
        cases,
        equal,
        first_different,
        is_whole: words.is_at_end(),
    }
}

// Runs the next case. Every number in the lists is 7 before the run. Each is lent as long as the case says; one that there is no room for is
// cut, and the case is not good. There is room for an input of 2,049 segments, which are too many.
fn is_as_stored(words: &mut Words) -> bool {
    let settings = settings(words);
    let lengths = Lengths::read(words);
    let mut input = [0; 12294];
    let mut work = [7; 12288];
    let mut marks = [7; 12288];
    let mut scan = [7; 6144];
    let mut masks = [7; 2048];
    let fits = lengths.input <= input.len()
        && lengths.work <= work.len()
        && lengths.marks <= marks.len()
        && lengths.scan <= scan.len()
        && lengths.masks <= masks.len();
    let input = front(&mut input, lengths.input);
    load(words, input);
    let mut lists = Lists {
        work: front(&mut work, lengths.work),
        marks: front(&mut marks, lengths.marks),
        scan: front(&mut scan, lengths.scan),
        masks: front(&mut masks, lengths.masks),
    };
    let report = lists.run(input, settings);
    lists.are_as_stored(words, report) && fits
}

// The first numbers of the list, or all of them where there are not so many.
fn front<T>(list: &mut [T], count: usize) -> &mut [T] {
    let count = count.min(list.len());
    &mut list[..count]
}

// The numbers that do not fit 32 bits are the greatest that does.
fn settings(words: &mut Words) -> Settings {
    Settings {
        n: words.size() as usize,
        fill: u32::try_from(words.size()).unwrap_or(u32::MAX),
        rule: u32::try_from(words.size()).unwrap_or(u32::MAX),
        budget: u32::try_from(words.size()).unwrap_or(u32::MAX),
    }
}

impl Lengths {
    fn read(words: &mut Words) -> Self {
        Self {
            work: words.size() as usize,
            marks: words.size() as usize,
            scan: words.size() as usize,
            masks: words.size() as usize,
            input: words.size() as usize,
        }
    }
}

// The next numbers of the text become those of the list.
fn load(words: &mut Words, list: &mut [i32]) {
    for number in list.iter_mut() {
        *number = words.number().unwrap_or_default().signed();
    }
}

impl<'a> Lists<'a> {
    fn run(&mut self, input: &[i32], settings: Settings) -> Report {
        report::of(run::overlay(
            input, settings, self.work, self.marks, self.scan, self.masks,
        ))
    }

    // The answer, m and looks, then the lists: 1 to 6 leave them as they were, 7 to 11 zero, 0 leaves the stored rows and bytes and then zeros.
    fn are_as_stored(&self, words: &mut Words, report: Report) -> bool {
        let answer = words.tell(report.answer);
        let segments = words.tell(report.segments);
        let looks = words.tell(report.looks);
        let m = report.segments.min(2048) as usize;
        let Some((rows, work)) = self.work.split_at_checked(6 * m) else {
            return false;
        };
        let Some((bytes, masks)) = self.masks.split_at_checked(m) else {
            return false;
        };
        let left: u8 = match report.answer {
            1..=6 => 7,
            _ => 0,
        };
        rows_are_stored(words, rows, bytes)
            && answer
            && segments
            && looks
            && is_all(work, i32::from(left))
            && is_all(self.marks, i32::from(left))
            && is_all(self.scan, i64::from(left))
            && is_all(masks, left)
    }
}

// The rows with their bytes are the next ones of the text. All of them are read.
fn rows_are_stored(words: &mut Words, rows: &[i32], bytes: &[u8]) -> bool {
    let mut good = true;
    for (row, &byte) in rows.chunks_exact(6).zip(bytes) {
        for &number in row {
            good &= words.number().is_some_and(|word| word.signed() == number);
        }
        good &= words.tell(u64::from(byte));
    }
    good
}

// Not by `all`: it stops at the first that differs and so compares one by one, which takes a run of long lists 1.7 times as long.
fn is_all<T: Copy + PartialEq>(list: &[T], left: T) -> bool {
    let mut good = true;
    for &x in list {
        good &= x == left;
    }
    good
}

impl fmt::Display for Tally {
    // How many cases there are and how many are equal, in a line; and what is wrong, if anything is.
    fn fmt<W: fmt::Write>(&self, f: &mut fmt::Formatter<W>) -> fmt::Result {
        writeln!(f, "{} cases, {} equal", self.cases, self.equal)?;
        if let Some(first) = self.first_different {
            writeln!(f, "the first that differs: {first}")?;
        }
        if !self.is_whole {
            writeln!(f, "the text goes on behind them")?;
        }
        Ok(())
    }
}
