// The text of an accepted answer and of a refusal, printed into a lent text buffer: written where it has room for it, and measured in any
// case, as `decimal` says. Each routine returns the place after what it printed.
#![tactic(auto)]

ghost use Rattle.std.specs.Prelude.{length, ◌+◌, ◌^◌, ◌<◌};
ghost use Rattle.definition.specs.Text.{accepted, refused, spaced};
ghost use Rattle.decimal.specs.Writing.{Printed};

// Prints the coefficients with single spaces.
fn write_spaced(list: &[u32], text: &mut [u8], at: usize) -> usize
    requires { at + length (spaced list.now) < 2 ^ 64 }
    ensures { Printed (spaced list.now) at text.old text.new result }
{
    let Some((first, rest)) = list.split_first() else {
        return at;
    };
    let mut next = decimal::write_decimal(u64::from(*first), text, at);
    for coefficient in rest {
        next = decimal::write_after(b" ", u64::from(*coefficient), text, next);
    }
    next
}

// Prints an accepted answer.
pub fn write_accepted(n: usize, weight: u64, list: &[u32], text: &mut [u8]) -> usize
    requires { length (accepted n weight list.now) < 2 ^ 64 }
    ensures { Printed (accepted n weight list.now) 0 text.old text.new result }
{
    let next = decimal::write_after(b"ok ", n as u64, text, 0);
    let next = decimal::write_after(b" ", weight, text, next);
    let next = decimal::write_bytes(b"\n", text, next);
    let next = write_spaced(list, text, next);
    decimal::write_bytes(b"\n", text, next)
}

// Prints a refusal.
pub fn write_refused(number: u32, text: &mut [u8]) -> usize
    ensures { Printed (refused number) 0 text.old text.new result }
{
    let next = decimal::write_after(b"no ", u64::from(number), text, 0);
    decimal::write_bytes(b"\n", text, next)
}
