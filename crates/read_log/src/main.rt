// Reads a log from standard input and prints a line per command until a refusal.

#![tactic(auto)]

// One byte more than a log may have, so that one too long is seen to be. No text is longer than the second buffer.
fn main() {
    let mut log = [0u8; log_text::LONGEST_LOG + 1];
    let got = io::read_full(0, &mut log);
    let mut out = [0u8; log_text::LONGEST_TEXT];
    let n = log_text::print_log(&log[..got], &mut out);
    io::write_all(1, &out[..n]);
}
