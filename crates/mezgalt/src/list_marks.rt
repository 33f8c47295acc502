// The marks of a script.
ghost use Rattle.std.specs.Prelude.{◌≡◌, ◌≤◌, take};
ghost use Rattle.timed_table.specs.Marks.{same_numbers};

use crate::words;
use crate::words::BadLine;
use slots::Mark;

const MOST_NUMBERS: usize = 8;

// A mark that is a list of up to eight numbers: the first `count`. It takes no memory, so a mark is never refused for
// want of it. The count is one octet, so that a record of a slot takes 48.
#[derive(Clone, Copy)]
pub struct ListMark {
    numbers: [u32; MOST_NUMBERS],
    count: u8,
    ghost few: { count ≤ 8 },
}

// Stays: written into `same`, where the lists are parts of two arrays, its proof does not close.
fn same_numbers(a: &[u32], b: &[u32]) -> bool
    ensures { result ≡ same_numbers a.now b.now }
{
    a == b
}

impl Mark for ListMark {
    ghost numbers = { λ m. take m.count m.numbers };

    fn same(&self, other: &ListMark) -> bool {
        same_numbers(
            &self.numbers[..self.count as usize],
            &other.numbers[..other.count as usize],
        )
    }
}

impl ListMark {
    // The mark of numbers with commas between them.
    pub fn of_word(word: &str) -> Result<ListMark, BadLine> {
        let mut numbers = [0; MOST_NUMBERS];
        let mut count = 0u8;
        for part in word.split(',') {
            if count as usize >= MOST_NUMBERS {
                return Err(BadLine::NotMark);
            }
            numbers[count as usize] = words::number(part)?;
            count += 1;
        }
        Ok(ListMark { numbers, count })
    }
}
