// The printer's line in: five numbers.
#![tactic(auto)]

ghost use Rattle.std.specs.Prelude.{◌≡◌};
ghost use Rattle.paper.specs.Lines.{question_of};
ghost use Rattle.question_line.specs.Asking.{field_at};

use paper::Question;

// The number at `at`, of one digit or more up to the byte `stop`, and the place past that byte; or none of 32 bits.
fn number_at(input: &[u8], at: usize, stop: u8) -> Option<(u32, usize)>
    ensures { result ≡ field_at input.now at stop }
{
    let mut value: u32 = 0;
    for i in at..input.len() {
        let byte = input[i];
        if byte == stop {
            return if at < i { Some((value, i + 1)) } else { None };
        }
        if !byte.is_ascii_digit() {
            return None;
        }
        let digit = u32::from(byte - b'0');
        value = value.checked_mul(10)?.checked_add(digit)?;
    }
    None
}

// Five numbers with one space between and a newline at the end, within 81 bytes.
pub fn parse(input: &[u8]) -> Option<Question>
    ensures { result ≡ question_of input.now }
{
    let (start, second) = number_at(input, 0, b' ')?;
    let (target, third) = number_at(input, second, b' ')?;
    let (time, fourth) = number_at(input, third, b' ')?;
    let (limit, fifth) = number_at(input, fourth, b' ')?;
    let (budget, end) = number_at(input, fifth, b'\n')?;
    let long = 81 < end;
    if long {
        return None;
    }
    Some(Question {
        start,
        target,
        time,
        limit,
        budget,
    })
}
