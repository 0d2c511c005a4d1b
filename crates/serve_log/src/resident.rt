// What the system says of the memory of a process.

/// What stands before the number.
const NAME: &[u8] = b"VmRSS:";

/// The number of the line `VmRSS:` of this text, in kibibytes. None where it isn't there.
pub fn resident_kib(text: &[u8]) -> Option<u64> {
    for line in text.split(|byte| *byte == b'\n') {
        if line.starts_with(NAME) {
            return number_in(line);
        }
    }
    None
}

// The first number of a line.
fn number_in(line: &[u8]) -> Option<u64> {
    for word in line.split(|byte| *byte == b' ' || *byte == b'\t') {
        if let Ok(word) = str::from_utf8(word) {
            if let Ok(number) = word.parse() {
                return Some(number);
            }
        }
    }
    None
}
