//! The options and the places of the commands: a row for each option.

/// A row of a command's options: the name, and whether a value belongs to it. An option without a value is a flag.
#[derive(Clone, Copy)]
pub(crate) struct OptionRow {
    pub(crate) name: &'static str,
    pub(crate) takes_value: bool,
}

/// An option whose value is a number: the least and the greatest number, and the one that stands where it is not given.
#[derive(Clone, Copy)]
pub(crate) struct NumberRow {
    pub(crate) name: &'static str,
    pub(crate) least: u32,
    pub(crate) most: u32,
    pub(crate) default: u32,
}

/// How many workers a search has.
pub(crate) static WORKERS: NumberRow = NumberRow {
    name: "workers",
    least: 1,
    most: 64,
    default: 1,
};

/// How many extensions a search may make.
pub(crate) static BUDGET: NumberRow = NumberRow {
    name: "budget",
    least: 0,
    most: 1_000_000,
    default: 100_000,
};

/// The greatest weight of an instance.
pub(crate) static WEIGHT: NumberRow = NumberRow {
    name: "weight",
    least: 1,
    most: 4_096,
    default: 256,
};

const WITH_WORKERS: OptionRow = OptionRow {
    name: "workers",
    takes_value: true,
};

const WITH_BUDGET: OptionRow = OptionRow {
    name: "budget",
    takes_value: true,
};

const WITH_WEIGHT: OptionRow = OptionRow {
    name: "weight",
    takes_value: true,
};

const WITH_ROOT: OptionRow = OptionRow {
    name: "root",
    takes_value: true,
};

pub(crate) static SEARCH_OPTIONS: [OptionRow; 4] = [
    WITH_WORKERS,
    WITH_BUDGET,
    WITH_WEIGHT,
    WITH_ROOT,
];

pub(crate) static SAMPLE_OPTIONS: [OptionRow; 2] = [WITH_WORKERS, WITH_BUDGET];

pub(crate) static ROOT_OPTION: [OptionRow; 1] = [WITH_ROOT];

pub(crate) static FILE_PLACE: [&str; 1] = ["FILE"];

pub(crate) static TREE_PLACES: [&str; 2] = ["FILE", "TREE"];

pub(crate) static SIZE_PLACE: [&str; 1] = ["K"];
