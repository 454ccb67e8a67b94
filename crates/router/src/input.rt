// The program's input, up to the most that it takes.
use std::io::Read;

// The most bytes that a plant file and its commands may have together.
pub const MOST_BYTES: usize = 32768;

// All of standard input; of a longer one, a little more than it may have.
pub fn read_input(rt: &HostRuntime) -> anyhow::Result<Vec<u8>> {
    let mut text = Vec::new(rt.alloc());
    let mut input = rt.stdin();
    let mut part = [0u8; 4096];
    // a bound and no index: reading has to end
    for _ in 0..u64::MAX {
        let n = input.read(&mut part)?;
        if n == 0 || text.len() > MOST_BYTES {
            break;
        }
        text.extend_from_slice(&part[0..n])?;
    }
    Ok(text)
}
