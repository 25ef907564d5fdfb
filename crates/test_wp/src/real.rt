// The files of the system.

use crate::parts::tell_read;
use crate::settings::word_of;
use test_lines::Page;
use wp_base::NoMemory;
use wp_io::{Files, RealFiles, read_all};

/// Opens a file of the system and reads it.
pub fn real_case(rt: HostRuntime, page: &mut Page, name: &str) -> Result<(), NoMemory> {
    let alloc = rt.alloc();
    let name = word_of(alloc, name)?;
    let mut files = RealFiles::new(rt);
    match files.open(&name) {
        Ok(()) => tell_read(page, read_all(alloc, &mut files, 1000)),
        Err(_) => page.put(" cannot open"),
    }
    Ok(())
}
