//! The text of a line, without its line feed.

ghost use Rattle.std.specs.Prelude.{◌≡◌, Some};
ghost use Rattle.lines.specs.Text.{answer_number, text};

use super::line::Line;
use std::fmt;

// The number of an answer that says no more: 0 for success.
fn number_of(answer: Result<(), u8>) -> u8
    ensures { result ≡ answer_number answer }
{
    answer.err().unwrap_or(0)
}

impl fmt::Display for Line {
    ghost output = { λ l. Some (text l) };

    fn fmt<W: fmt::Write>(&self, f: &mut fmt::Formatter<W>) -> fmt::Result {
        match *self {
            Line::Set { sequence, answer } => write!(f, "set {sequence} {}", number_of(answer)),
            Line::Mode(Ok(mode)) => write!(f, "mode 0 {} {}", mode.place, mode.descriptor),
            Line::Mode(Err(refusal)) => write!(f, "mode {refusal} - -"),
            Line::Open {
                channel,
                answer: Ok(descriptor),
            } => write!(f, "open {channel} 0 {descriptor}"),
            Line::Open {
                channel,
                answer: Err(refusal),
            } => write!(f, "open {channel} {refusal} -"),
            Line::Close { channel, answer } => write!(f, "close {channel} {}", number_of(answer)),
            Line::Bad(tag) => write!(f, "bad {tag}"),
            Line::Short => write!(f, "short"),
        }
    }
}
