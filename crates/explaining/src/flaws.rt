// The first thing in a line that stands in no command.
ghost use Rattle.explaining.specs.Flaws.{FirstFlaw, flaw_at, is_digit_at};
ghost use Rattle.std.specs.Prelude.{◌≡◌, ◌<◌, length};

/// What stands in no command, wherever it is found.
#[derive(Clone, Copy, Debug, PartialEq, Eq)]
pub enum Flaw {
    CarriageReturn,
    Tab,
    /// A blank at the line's start or end, or one behind another.
    Blank,
    /// A sign before a number.
    Sign,
    /// A number of two digits or more that begins with 0.
    LeadingZero,
}

fn is_digit(line: &[u8], place: usize) -> bool
    ensures { result ≡ is_digit_at line.now place }
{
    match line.get(place) {
        Some(byte) => byte.is_ascii_digit(),
        None => false,
    }
}

// What is wrong at a place of the line, by the byte there and its neighbours. A blank stands before the line and behind it.
fn flaw_at(line: &[u8], place: usize) -> Option<Flaw>
    requires { place < length line.now }
    ensures { result ≡ flaw_at line.now place }
{
    let before = if place == 0 { b' ' } else { line[place - 1] };
    match line[place] {
        b'\r' => Some(Flaw::CarriageReturn),
        b'\t' => Some(Flaw::Tab),
        b' ' if before == b' ' || place + 1 == line.len() => Some(Flaw::Blank),
        b'+' | b'-' if before == b' ' => Some(Flaw::Sign),
        b'0' if before == b' ' && is_digit(line, place + 1) => Some(Flaw::LeadingZero),
        _ => None,
    }
}

/// The first flaw of a line, and at which of its bytes it stands, counted from 0.
pub fn first_flaw(line: &[u8]) -> Option<(Flaw, usize)>
    ensures { FirstFlaw line.now result }
{
    for place in 0..line.len() {
        if let Some(flaw) = flaw_at(line, place) {
            return Some((flaw, place));
        }
    }
    None
}
