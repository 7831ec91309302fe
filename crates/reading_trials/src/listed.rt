//! Files in memory, by a list.

use mg_outside::MemoryFiles;
use mg_word::{NoMemory, Text};
use std::alloc::Global;

/// Files with these names and texts, where the calls with these numbers fail.
pub fn memory(
    alloc: Global,
    listed: &[(&str, &str)],
    failing: &[u64],
) -> Result<MemoryFiles, NoMemory> {
    let mut files: Vec<(Text, Vec<u8>)> = Vec::new(alloc);
    for (name, text) in listed {
        files.push((
            Text::new(Vec::from_slice(alloc, name.as_bytes())?),
            Vec::from_slice(alloc, text.as_bytes())?,
        ))?;
    }
    MemoryFiles::new(files, Vec::from_slice(alloc, failing)?)
}
