// Whole numbers in a text, one after the other, with white space between them: every byte up to the space is white space.

// What is left of the text.
#[derive(Drop)]
pub(crate) struct Words<'a> {
    rest: &'a [u8],
}

// A number by its size and sign.
#[derive(Clone, Copy, Default)]
pub(crate) struct Word {
    pub size: u64,
    pub minus: bool,
}

impl<'a> Words<'a> {
    pub(crate) fn new(text: &'a [u8]) -> Self {
        Self { rest: text }
    }

    // The next number, if one stands here. One of more than eleven digits is cut there.
    pub(crate) fn number(&mut self) -> Option<Word> {
        let blanks = self
            .rest
            .iter()
            .position(|&b| b > b' ')
            .unwrap_or(self.rest.len());
        self.rest = &self.rest[blanks..];
        let minus = self.rest.first() == Some(&b'-');
        if minus {
            self.rest = &self.rest[1..];
        }
        let size = self.digits()?;
        Some(Word { size, minus })
    }

    fn digits(&mut self) -> Option<u64> {
        let mut size = None;
        while let [digit @ b'0'..=b'9', rest @ ..] = self.rest {
            let front = size.unwrap_or(0);
            if front > 9_999_999_999 {
                break;
            }
            size = Some(front * 10 + u64::from(*digit - b'0'));
            self.rest = rest;
        }
        size
    }

    // The next number by its size: 0 where none stands here.
    pub(crate) fn size(&mut self) -> u64 {
        self.number().unwrap_or_default().size
    }

    // Whether a number of this size stands here. It is read.
    pub(crate) fn tell(&mut self, size: u64) -> bool {
        self.number().is_some_and(|word| word.size == size)
    }

    pub(crate) fn is_at_end(&self) -> bool {
        self.rest.iter().all(|&b| b <= b' ')
    }
}

impl Word {
    // The number as 32 bits with a sign; one that is too far from 0 is 0. 2^31 is -2^31.
    pub(crate) fn signed(self) -> i32 {
        if self.size > 1 << 31 {
            return 0;
        }
        let number = (self.size as u32).cast_signed();
        if self.minus {
            number.wrapping_neg()
        } else {
            number
        }
    }
}
