// Numbers as text.
ghost use Rattle.std.specs.Prelude.{◌≡◌, ◌<◌, ◌≤◌, length, IfOk, pos};
ghost use Rattle.entry.specs.Numbers.{digits_of, is_comma, number_of, numbers_of};
ghost use Rattle.entry.specs.Printed.{Printed, Short};
ghost use Rattle.std.specs.List.{position_or_len};
ghost use Rattle.std.specs.Option.{ok_or, option_map};

use fault::Fault;

const MOST_DIGITS: usize = 7;

// One to seven digits, the first not 0.
fn digits(text: &[u8]) -> Result<i32, Fault>
    ensures value { result ≡ ok_or (option_map pos (digits_of 7 text.now)) (Fault.EntryForm 0) }
    ensures short { IfOk result Short }
{
    if text.is_empty() || text.len() > MOST_DIGITS || text[0] == b'0' {
        return Err(Fault::EntryForm(0));
    }
    let mut n: u32 = 0;
    for c in text {
        if !c.is_ascii_digit() {
            return Err(Fault::EntryForm(0));
        }
        n = n * 10 + u32::from(*c - b'0');
    }
    Ok(n as i32)
}

// The number that a text is: 0, or an optional minus and one to seven digits, the first not 0.
#[tactic(auto, using(crate::proofs::Spelling::printed_from))]
pub fn number(text: &[u8]) -> Result<i32, Fault>
    ensures value { result ≡ number_of text.now }
    ensures printed { Printed text.now result }
{
    match text {
        [b'0'] => Ok(0),
        [b'-', rest @ ..] => Ok(-digits(rest)?),
        _ => digits(text),
    }
}

// Where the first comma stands, or the text's length.
fn comma_at(text: &[u8]) -> usize
    ensures value { result ≡ position_or_len is_comma text.now }
    ensures within { result ≤ length text.now }
{
    text.iter().position(|c| *c == b',').unwrap_or(text.len())
}

// The N numbers that a text is, a comma between each and the next. The last is all that is left of the text, so that a
// long one is refused by its length and not gone through.
pub(crate) fn numbers<const N: usize>(text: &[u8]) -> Result<[i32; N], Fault>
    requires { 0 < N }
    ensures { result ≡ numbers_of N text.now }
{
    let mut found = [0; N];
    let mut rest = text;
    for i in 0..N - 1 {
        let (piece, behind) = rest.split_at(comma_at(rest));
        found[i] = number(piece)?;
        let [_, more @ ..] = behind else {
            return Err(Fault::EntryForm(0));
        };
        rest = more;
    }
    found[N - 1] = number(rest)?;
    Ok(found)
}
