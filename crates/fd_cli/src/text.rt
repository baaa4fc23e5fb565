//! What is printed.

ghost use Rattle.std.specs.Prelude.{◌≡◌, ◌≤◌, length, Some};
ghost use Rattle.fd_cli.specs.Ending.{answer_text};
ghost use Rattle.fd_cli.specs.Received.{received_line, report_of, spent_line};
ghost use Rattle.fd_cli.specs.Reply.{text_bytes};
ghost use Rattle.fd_cli.specs.declared.answer.Answer.TheVariants.{Made, Refused, Saved, Sent};
ghost use Rattle.fd_cli.specs.declared.refusal.Refusal.TheVariants.{NoAnswer};

use crate::refusal::Refusal;
use arrayvec::ArrayString;
use fd_info::vmcore_name;
use fd_netserver::Received;
use fd_words::Word;
use itoa::Buffer;

/// A line that is made without memory, so behind a write too.
pub(crate) type Line = ArrayString<96>;

/// The lines of a server's sessions, which are made without memory too.
pub(crate) type Report = ArrayString<1024>;

/// What is printed.
#[derive(Drop)]
pub(crate) enum Text {
    /// Lines that took memory.
    Lines(Vec<u8>),
    /// One line that took none.
    Line(Line),
    /// Up to 17 lines that took none.
    Report(Report),
}

impl Text {
    /// Its bytes.
    pub(crate) fn as_slice(&self) -> &[u8]
        ensures { result.now ≡ text_bytes self.now }
    {
        match self {
            Text::Lines(lines) => lines.as_slice(),
            Text::Line(line) => line.as_str().as_bytes(),
            Text::Report(report) => report.as_str().as_bytes(),
        }
    }
}

/// The line of an image that was written to a file of this name.
pub(crate) fn image_line(file: &Word, size: u64) -> Line
    requires { length file.now ≤ 64 }
    ensures { result.bytes ≡ answer_text (Made file.now size) }
{
    let mut line = Line::new();
    line.push_str("image ");
    line.push_str(file.as_str());
    line.push_str(" ");
    line.push_str(Buffer::new().format(size));
    line.push('\n');
    line
}

/// The line of a dump that was saved under a number.
pub(crate) fn saved_line(number: u32, length: u64) -> Line
    ensures { result.bytes ≡ answer_text (Saved number length) }
{
    let mut line = Line::new();
    line.push_str("saved ");
    line.push_str(vmcore_name(number).as_str());
    line.push_str(" ");
    line.push_str(Buffer::new().format(length));
    line.push('\n');
    line
}

/// The line of a dump that was sent, and of the number of its last message.
pub(crate) fn sent_line(length: u64, last: u32) -> Line
    ensures { result.bytes ≡ answer_text (Sent length last) }
{
    let mut line = Line::new();
    line.push_str("sent ");
    line.push_str(Buffer::new().format(length));
    line.push_str(" ");
    line.push_str(Buffer::new().format(last));
    line.push('\n');
    line
}

/// The line of a message that no server acknowledged.
pub(crate) fn no_answer_line(number: u32) -> Line
    ensures { result.bytes ≡ answer_text (Refused (NoAnswer number)) }
{
    let mut line = Line::new();
    line.push_str("refused ");
    line.push_str(Buffer::new().format(Refusal::NoAnswer(number).number()));
    line.push_str(": no answer to ");
    line.push_str(Buffer::new().format(number));
    line.push('\n');
    line
}

// The line of a session.
fn received_line(received: &Received) -> Line
    ensures bytes { result.bytes ≡ received_line received.now }
    ensures short { length result.bytes ≤ 48 }
{
    let mut line = Line::new();
    line.push_str("received ");
    line.push_str(vmcore_name(received.number).as_str());
    line.push_str(" ");
    line.push_str(Buffer::new().format(received.length));
    line.push('\n');
    line
}

// The line of turns that were spent.
fn spent_line(turns: u64) -> Line
    ensures bytes { result.bytes ≡ spent_line (Some turns) }
    ensures short { length result.bytes ≤ 48 }
{
    let mut line = Line::new();
    line.push_str("refused ");
    line.push_str(Buffer::new().format(Refusal::TurnsSpent(turns).number()));
    line.push_str(": turns ");
    line.push_str(Buffer::new().format(turns));
    line.push('\n');
    line
}

/// The lines of a server's sessions, and behind them that of its turns, where they were spent.
pub(crate) fn report(sessions: &[Received], spent: Option<u64>) -> Report
    requires { length sessions.now ≤ 16 }
    ensures { result.bytes ≡ report_of sessions.now spent }
{
    let mut report = Report::new();
    for session in sessions {
        report.push_str(received_line(session).as_str());
    }
    if let Some(turns) = spent {
        report.push_str(spent_line(turns).as_str());
    }
    report
}
