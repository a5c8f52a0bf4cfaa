// The lines that are printed, put into a lent run of bytes.
ghost use Rattle.std.specs.Prelude.{◌≡◌, ◌+◌, ◌%◌, ◌≤◌, length};
ghost use Rattle.script.specs.Lines.{decimal, line_of, stop_line, line_limit, Put};

use moves::copy_in;

// No line is longer: `stop`, a space, a number of at most 20 digits, and the line's end.
pub const LINE_LIMIT: usize = 26;

// Puts a text at a place, and tells where it ends.
fn put_text(out: &mut [u8], at: usize, text: &[u8]) -> usize
    requires { at + length text.now ≤ length out.old }
    ensures { Put out.old at text.now result out.new }
{
    copy_in(out, at, text);
    at + text.len()
}

// The digit of a number's last place.
fn digit(n: u64) -> u8
    ensures { result ≡ 48 + n % 10 }
{
    b'0' + (n % 10) as u8
}

// Digit by digit, since no crate takes a library of the kit.
fn put_decimal(out: &mut [u8], at: usize, n: u64) -> usize
    requires { at + length (decimal n) ≤ length out.old }
    ensures { Put out.old at (decimal n) result out.new }
{
    if n < 10 {
        return put_text(out, at, &[digit(n)]);
    }
    let next = put_decimal(out, at, n / 10);
    put_text(out, next, &[digit(n)])
}

// The line of an answer: status, space, value in decimal. The bytes are lent, so it answers where the line ends.
pub fn put_line(out: &mut [u8], at: usize, status: u8, value: u64) -> usize
    requires { at + line_limit ≤ length out.old }
    ensures { Put out.old at (line_of status value) result out.new }
{
    let space = put_decimal(out, at, u64::from(status));
    let from = put_text(out, space, b" ");
    let to = put_decimal(out, from, value);
    put_text(out, to, b"\n")
}

// The line that ends a run: `stop`, space, the record's byte offset in decimal.
pub fn put_stop(out: &mut [u8], at: usize, offset: u64) -> usize
    requires { at + line_limit ≤ length out.old }
    ensures { Put out.old at (stop_line offset) result out.new }
{
    let from = put_text(out, at, b"stop ");
    let to = put_decimal(out, from, offset);
    put_text(out, to, b"\n")
}
