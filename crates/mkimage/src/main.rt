#![tactic(auto)]
// Records on standard input; on standard output the image built at 20000000 hex, or the refusal.
mod output;

// The descriptors of standard input and standard output.
const STDIN_FILENO: i32 = 0;

const STDOUT_FILENO: i32 = 1;

// The bytes of the most records, and one more.
const INPUT: usize = records::SIZE * records::MOST + 1;

// Reads the records, builds the image in 65,536 bytes and writes it, or the refusal.
fn main() {
    let mut records = [0u8; INPUT];
    let mut memory = io::large_buffer();
    let n = io::read_full(STDIN_FILENO, &mut records);
    let k = output::output(&records[..n], &mut memory);
    io::write_all(STDOUT_FILENO, &memory[..k]);
}
