// The words that a program is called with.
use std::env;
use std::io::ErrorKind;
use wp_base::{Status, Str};

/// The words after the name of the program. `Usage` where one isn't UTF-8, since the words are no command then.
pub fn command_words(rt: &HostRuntime) -> Result<Vec<Str>, Status> {
    let alloc = rt.alloc();
    let args = match env::args(rt) {
        Ok(args) => args,
        Err(error) if error.kind() == ErrorKind::OutOfMemory => return Err(Status::NoMemory),
        Err(_) => return Err(Status::Usage),
    };
    let mut words = Vec::new(alloc);
    for word in args.skip(1) {
        let Ok(word) = Str::from_bytes(alloc, word.as_bytes()) else {
            return Err(Status::NoMemory);
        };
        if words.push(word).is_err() {
            return Err(Status::NoMemory);
        }
    }
    Ok(words)
}
