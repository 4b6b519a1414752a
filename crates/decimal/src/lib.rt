// Numbers in decimal and byte strings, printed into a lent text buffer: written where it has room for them, and measured in any case. So what
// is printed into an empty text is only measured.
//
// The text and the place in it stay two parameters: a struct that lends the text on would add to each clause below that it still holds the
// same text. Nor are the texts a Display: what writes it may fail, and no clause of fmt::Write says when.
#![tactic(auto)]

ghost use Rattle.std.specs.Prelude.{length, [], ◌∷◌, ◌++◌, ◌≡◌, ◌+◌, ◌^◌, ◌<◌};
ghost use Rattle.definition.specs.Text.{decimal};
ghost use Rattle.decimal.specs.Writing.{Printed};

// The count of digits of v, by four at a time.
#[tactic(auto, using(crate::proofs::Places::by_fours))]
pub fn decimal_places(v: u64) -> usize
    ensures { result ≡ length (decimal v) }
{
    if v < 10 {
        return 1;
    }
    if v < 100 {
        return 2;
    }
    if v < 1000 {
        return 3;
    }
    if v < 10000 {
        return 4;
    }
    decimal_places(v / 10000) + 4
}

// Prints the bytes from place `at` on. Like every routine here that prints it returns the place after them. It is put into its callers,
// and so is what prints a single digit: a call for each byte or digit takes 2 to 4 times as long where the numbers are short.
#[inline(always)]
pub fn write_bytes(bytes: &[u8], text: &mut [u8], at: usize) -> usize
    requires { at + length bytes.now < 2 ^ 64 }
    ensures { Printed bytes.now at text.old text.new result }
{
    let next = at + bytes.len();
    if next <= text.len() {
        text[at..next].copy_from_slice(bytes);
    }
    next
}

// Prints one digit.
#[inline(always)]
fn write_digit(digit: u64, text: &mut [u8], at: usize) -> usize
    requires { (digit < 10) × (at + 1 < 2 ^ 64) }
    ensures { Printed ((48 + digit) ∷ []) at text.old text.new result }
{
    if at < text.len() {
        text[at] = 48 + digit as u8;
    }
    at + 1
}

// Prints the digits of v, counted first.
#[inline(never)]
fn write_digits(v: u64, text: &mut [u8], at: usize) -> usize
    requires { at + length (decimal v) < 2 ^ 64 }
    ensures { Printed (decimal v) at text.old text.new result }
{
    let next = at + decimal_places(v);
    if next <= text.len() {
        itoa::write_digits(v, text, next);
    }
    next
}

// Prints the digits of v. A single digit, as small moduli have them, is not counted first.
#[inline(always)]
pub fn write_decimal(v: u64, text: &mut [u8], at: usize) -> usize
    requires { at + length (decimal v) < 2 ^ 64 }
    ensures { Printed (decimal v) at text.old text.new result }
{
    if v < 10 {
        write_digit(v, text, at)
    } else {
        write_digits(v, text, at)
    }
}

// Prints a lead and the digits of v.
#[inline(always)]
pub fn write_after(lead: &[u8], v: u64, text: &mut [u8], at: usize) -> usize
    requires { at + length (lead.now ++ decimal v) < 2 ^ 64 }
    ensures { Printed (lead.now ++ decimal v) at text.old text.new result }
{
    let next = write_bytes(lead, text, at);
    write_decimal(v, text, next)
}
