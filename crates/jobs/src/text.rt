// The text of an answer, written to the start of a buffer that has room for it. Each function answers the text's length.
ghost use Rattle.std.specs.Prelude.{◌≡◌, ◌+◌, ◌*◌, ◌≤◌, ◌<◌, length};
ghost use Rattle.slices.specs.Over.{over};
ghost use Rattle.jobs.specs.JobText.{code_text, refused_text};

use lines::TextSink;

// `code `, lower-case hex and a line feed.
pub(crate) fn write_code(text: &mut [u8], code: &[u8]) -> usize
    requires { 6 + 2 * length code.now ≤ length text.old }
    ensures upper_bound { result ≤ length text.old }
    ensures value { result ≡ length (code_text code.now) }
    ensures text_after { text.new ≡ over text.old 0 (code_text code.now) }
{
    let mut sink = TextSink::new(text, 0);
    sink.put(b"code ");
    sink.put_hex(code);
    sink.put(b"\n");
    sink.place()
}

// `refused 8 at 3` and a line feed.
pub(crate) fn write_refused(text: &mut [u8], number: u32, section: u32) -> usize
    requires { (25 ≤ length text.old) × (number < 100) }
    ensures upper_bound { result ≤ length text.old }
    ensures value { result ≡ length (refused_text number section) }
    ensures text_after { text.new ≡ over text.old 0 (refused_text number section) }
{
    let mut sink = TextSink::new(text, 0);
    sink.put(b"refused ");
    sink.put_decimal(number);
    sink.put(b" at ");
    sink.put_decimal(section);
    sink.put(b"\n");
    sink.place()
}
