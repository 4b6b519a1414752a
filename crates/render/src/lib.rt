// The call render: the printed answer, written into the lent text buffer; where that might be too short the answer is measured first.
#![tactic(auto)]

ghost use Rattle.std.specs.Prelude.{length, ◌≡◌, ◌≢◌, ◌≤◌, ◌+◌, ◌*◌};
ghost use Rattle.definition.specs.Calls.{Render};
ghost use Rattle.definition.specs.Refusal.{limit, render_refusal};
ghost use Rattle.definition.specs.Text.{rendered};
ghost use Rattle.decimal.specs.Writing.{Printed};
ghost use Rattle.reason.specs.Numbers.{number, value};
ghost use Rattle.refusal_tests.specs.Tests.{Passed, list_tests};

use reason::Refusal;

// Prints the answer of this number from place 0 of `text` on, where its order and its list are not refused; the count of its bytes.
fn write_rendered(answer: u32, n: usize, weight: u64, list: &[u32], text: &mut [u8]) -> usize
    requires { Passed (list_tests answer n (length list.now)) }
    ensures { Printed (rendered answer n weight list.now) 0 text.old text.new result }
{
    if answer == 0 {
        text::write_accepted(n, weight, list, text)
    } else {
        text::write_refused(answer, text)
    }
}

// The bytes of the longest text of an answer of this number with so many coefficients.
fn longest(answer: u32, places: usize) -> usize
    requires { answer ≡ 0 → places ≤ limit }
    ensures accepted { answer ≡ 0 → result ≡ 29 + 11 * places }
    ensures refused { answer ≢ 0 → result ≡ 14 }
{
    if answer == 0 { 29 + 11 * places } else { 14 }
}

// Tests whether the answer has room in a text of so many bytes. Only a text that has none for the longest answer is measured against this one.
fn fits(answer: u32, n: usize, weight: u64, list: &[u32], room: usize) -> Result<(), Refusal>
    requires { Passed (list_tests answer n (length list.now)) }
    ensures { number result
        ≡ render_refusal answer n (length list.now) (length (rendered answer n weight list.now)) room }
{
    if longest(answer, list.len()) <= room {
        return Ok(());
    }
    let places = write_rendered(answer, n, weight, list, &mut []);
    refusal::render(answer, n, list.len(), places, room)
}

// The printed form of a refusal number, or of 0 with order, weight and coefficients, from place 0 of `text` on; the count of its bytes. The
// number is C's, and any number is rendered: so it is no Refusal.
pub fn render(
    answer: u32,
    n: usize,
    weight: u64,
    list: &[u32],
    text: &mut [u8],
) -> Result<usize, Refusal>
    ensures { Render answer n weight list.now text.old text.new (number result) (value result) }
{
    refusal::list(answer, n, list.len())?;
    fits(answer, n, weight, list, text.len())?;
    Ok(write_rendered(answer, n, weight, list, text))
}
