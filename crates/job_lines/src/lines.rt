// The lines of a text.
ghost use Rattle.job_lines.specs.Lines.{LinesComeBack, Next};

use crate::words::cut;

// The first line of a text, without its LF, and what follows the LF; none if there are no bytes.
//
// It is no iterator, since its callers stop at a line that they do not take and hand on the text from that line.
pub fn next_line<'a>(text: &'a [u8]) -> Option<(&'a [u8], &'a [u8])>
    ensures { Next text.now result }
{
    if text.is_empty() {
        return None;
    }
    Some(cut(text, b'\n').unwrap_or((text, b"")))
}

// The lines that were written are the lines of the text.
pub fn lines_come_back() -> u8
    ensures { LinesComeBack }
{
    0
}
