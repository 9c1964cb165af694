// The bytes of a file at the front of as many as the programs read, and bytes in print.
use system::FILE_BYTES;
use trial::say;

// The first bytes of a file, 0s behind it.
pub fn front_of(file: &[u8]) -> [u8; FILE_BYTES] {
    let mut front = [0; FILE_BYTES];
    let size = file.len().min(FILE_BYTES);
    front[..size].copy_from_slice(&file[..size]);
    front
}

// The bytes of a sheet or a made file, or of the line of a refusal, at most 512: more than the 307 of the longest file.
pub fn say_hex(rt: &HostRuntime, bytes: &[u8]) {
    say::say(rt, b" ");
    for byte in bytes.iter().take(512) {
        say::say_hex(rt, *byte);
    }
}
