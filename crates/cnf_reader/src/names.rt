//! Under which names an included file is looked for.

ghost use Rattle.std.specs.Prelude.{◌≡◌, ◌≤◌, ◌++◌, IfOk, length, string_bytes};
ghost use Rattle.std.specs.Option.{option_map};
ghost use Rattle.std.specs.Str.{IsCharBoundary};
ghost use Rattle.cnf_reader.specs.Names as names;
ghost use Rattle.cnf_reader.specs.Openings.{names_tried};

use mg_word::NoMemory;
use std::alloc::Global;

/// The names to try, in order.
#[derive(Drop)]
pub struct Tries {
    pub first: String,
    pub second: Option<String>,
}

fn is_absolute(file: &str) -> bool
    ensures { result ≡ names.is_absolute file.now }
{
    match file.as_bytes() {
        [] => false,
        [first, ..] => *first == b'/',
    }
}

// The number of bytes up to the last slash, where no character is cut.
fn folder_len(name: &str) -> usize
    ensures count { result ≡ names.up_to_slash 0 0 name.now }
    ensures cut { IsCharBoundary name.now result }
{
    let mut len = 0;
    for (at, byte) in name.as_bytes().iter().enumerate() {
        if *byte == b'/' {
            len = at + 1;
        }
    }
    len
}

fn ends_with_slash(folder: &str) -> bool
    ensures { result ≡ names.ends_with_slash folder.now }
{
    match folder.as_bytes().last() {
        None => false,
        Some(byte) => *byte == b'/',
    }
}

// The file in the folder that another file stands in.
fn beside(alloc: Global, including: &str, file: &str) -> Result<String, NoMemory>
    ensures { IfOk result (λ name. string_bytes name ≡ names.folder_of including.now ++ file.now) }
{
    let mut name = String::from_str(alloc, &including[..folder_len(including)])?;
    name.push_str(file)?;
    Ok(name)
}

// The file at the root.
fn at_root(alloc: Global, root: &str, file: &str) -> Result<String, NoMemory>
    ensures { IfOk result (λ name. string_bytes name ≡ names.with_slash root.now ++ file.now) }
{
    let mut name = String::from_str(alloc, root)?;
    if !ends_with_slash(root) {
        name.push_str("/")?;
    }
    name.push_str(file)?;
    Ok(name)
}

/// The names to try for a file that is included by another.
pub fn make_tries(
    alloc: Global,
    root: Option<&str>,
    including: &str,
    file: &str,
) -> Result<Tries, NoMemory>
    ensures { IfOk result (λ made. names_tried made ≡ names.tries (option_map (λ r. r.now) root.entry) including.now file.now) }
{
    if is_absolute(file) {
        return Ok(Tries {
            first: String::from_str(alloc, file)?,
            second: None,
        });
    }
    let first = beside(alloc, including, file)?;
    let second = match root {
        None => None,
        Some(root) => Some(at_root(alloc, root, file)?),
    };
    Ok(Tries { first, second })
}
