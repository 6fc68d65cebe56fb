//! A mission and the trace of its run in one input: the mission's bytes, a line `--- trace`, and the trace.
ghost use Rattle.std.specs.Prelude.{◌≡◌, ◌≤◌, ◌<◌, ◌∷◌, length, take, drop};
ghost use Rattle.guards_audit.specs.Lines.{lines_in};
ghost use Rattle.run_audit.specs.Marks.{is_mark, mission_bytes, trace_bytes};

/// How many bytes the first line has, with its line end.
#[tactic(auto, using(crate::proofs::FirstLines::first_line_ends, crate::proofs::FirstLines::one_line))]
pub fn line_len(text: &[u8]) -> usize
    requires { 0 < length text.now }
    ensures some { 0 < result }
    ensures most { result ≤ length text.now }
    ensures cut { lines_in text.now ≡ take result text.now ∷ lines_in (drop result text.now) }
{
    for (place, byte) in text.iter().enumerate() {
        if *byte == b'\n' {
            return place + 1;
        }
    }
    text.len()
}

/// Whether a line is just `--- trace`, with its line end or without one.
fn is_mark(line: &[u8]) -> bool
    ensures { result ≡ is_mark line.now }
{
    line == b"--- trace\n".as_slice() || line == b"--- trace".as_slice()
}

/// The bytes of the mission, which stand before the first line that is `--- trace`, and those of the trace after it.
/// Without such a line all bytes are the mission's, and the trace is empty.
pub fn split_run(input: &[u8]) -> (&[u8], &[u8])
    ensures mission { result.0.now ≡ mission_bytes input.now }
    ensures trace { result.1.now ≡ trace_bytes input.now }
{
    let mut rest = input;
    while !rest.is_empty() {
        let (line, more) = rest.split_at(line_len(rest));
        if is_mark(line) {
            return (&input[..input.len() - rest.len()], more);
        }
        rest = more;
    }
    (input, rest)
}
