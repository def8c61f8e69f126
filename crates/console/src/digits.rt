// Whole numbers put on a page by their digits, where it is stated which digits stand there. `write!` shows them too, and states less of a page that is full.
ghost use Rattle.console.specs.Numeral.{PutNumber};

use slices::page::Page;

// A whole number in decimal digits.
pub fn put_number(page: &mut Page, n: u64)
    ensures { PutNumber 10 1 n page.old page.new }
{
    let mut digits = [0u8; 20];
    let k = io::decimal(n, &mut digits);
    page.put(&digits[..k]);
}

// A whole number of the width that most have.
pub fn put_count(page: &mut Page, n: u32)
    ensures { PutNumber 10 1 n page.old page.new }
{
    put_number(page, n as u64)
}

// A whole number in eight hexadecimal digits.
pub fn put_word(page: &mut Page, n: u32)
    ensures { PutNumber 16 8 n page.old page.new }
{
    let mut digits = [0u8; 16];
    let k = io::hex(n as u64, 8, &mut digits);
    page.put(&digits[..k]);
}
