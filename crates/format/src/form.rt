// The forms of whole lines, and the values of a table.
ghost use Rattle.std.specs.Prelude.{◌≡◌, ℕ, List, length};
ghost use Rattle.format.specs.Form.{Token as Spelt};
ghost use Rattle.format.specs.Items.{all, numbers_form};
ghost use Rattle.format.specs.Places.{TokensIn, ValuesAt};

use crate::cursor::Cursor;
use crate::token::Line;

// The numbers of the whole line (WORD A B ..).
pub fn take_numbers<const N: usize>(line: Line, word: &[u8]) -> Option<[u32; N]>
    ensures { (ts : List Spelt) → TokensIn line.entry ts → all (numbers_form N word.now ts) ≡ result }
{
    let mut cursor = line.start();
    cursor.open(word)?;
    let mut numbers = [0u32; N];
    for number in numbers.iter_mut() {
        *number = cursor.number()?;
    }
    cursor.close()?;
    cursor.is_over().then_some(numbers)
}

// Writes the values from a place on into a row, as far as there are.
pub fn fill_values(mut from: Cursor, row: &mut [u32])
    ensures { (xs : List ℕ) → ValuesAt from.entry.line.text.now from.entry.at xs (length row.old) → row.new ≡ xs }
{
    for entry in row.iter_mut() {
        let Some(value) = from.value() else {
            return;
        };
        *entry = value;
    }
}
