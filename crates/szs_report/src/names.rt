//! The name of a problem in the lines that are printed.

ghost use Rattle.std.specs.Prelude.{◌≡◌};
ghost use Rattle.sample_maker.specs.Sample.{HasSample};
ghost use Rattle.szs_report.specs.Names.{name_of, last_part, sample_name, stem_of};

// What stands behind the last slash of a path.
fn last_part(path: &str) -> &str
    ensures { result.now ≡ last_part path.now }
{
    match path.rsplit_once('/') {
        None => path,
        Some((_, behind)) => behind,
    }
}

// The name without a final `.p`, where something stands before that.
fn stem_of(name: &str) -> &str
    ensures { result.now ≡ stem_of name.now }
{
    match name.strip_suffix(".p") {
        Some(stem) if !stem.is_empty() => stem,
        _ => name,
    }
}

/// The name of the problem at a path: the part behind the last `/`, without a final `.p` where
/// something stands before it. It takes no memory.
pub fn szs_name(path: &str) -> &str
    ensures { result.now ≡ name_of path.now }
{
    stem_of(last_part(path))
}

/// The name of the sample problem of that size. It takes no memory.
pub fn sample_name(size: u32) -> &'static str
    requires { HasSample size }
    ensures { result.now ≡ sample_name size }
{
    match size {
        1 => "sample-1",
        2 => "sample-2",
        3 => "sample-3",
        4 => "sample-4",
        5 => "sample-5",
        6 => "sample-6",
        7 => "sample-7",
        8 => "sample-8",
        9 => "sample-9",
        10 => "sample-10",
        11 => "sample-11",
        12 => "sample-12",
        13 => "sample-13",
        14 => "sample-14",
        15 => "sample-15",
        16 => "sample-16",
        17 => "sample-17",
        18 => "sample-18",
        19 => "sample-19",
        20 => "sample-20",
        _ => unreachable!(),
    }
}
