ghost use Rattle.std.specs.Prelude.{◌≡◌, ◌==◌, ◌-◌, ◌^◌, map, option_and_then, slice_index};
ghost use Rattle.command_words.specs.Table.{shown, table, solo_table, measured, number_of, within};

/// What of an option's value has a range.
#[derive(Clone, Copy, Debug, PartialEq, Eq)]
pub enum Measure {
    /// The number that its decimal digits write.
    Number,
    /// How many bytes it has.
    Length,
}

/// A row of the table: an option.
#[derive(Clone, Copy, Debug)]
pub struct OptionRow {
    /// What stands after the two dashes.
    pub name: &'static str,
    /// What of the value has the range.
    pub measure: Measure,
    /// The least that is allowed.
    pub least: u64,
    /// The most that is allowed.
    pub most: u64,
    /// The value of an option that the words leave out.
    pub preset: &'static str,
}

/// How many workers go round the processes.
pub const WORKERS: OptionRow = OptionRow {
    name: "workers",
    measure: Measure::Number,
    least: 1,
    most: 16,
    preset: "1",
};

/// The name of the function that process 1 enters.
pub const ENTRY: OptionRow = OptionRow {
    name: "entry",
    measure: Measure::Length,
    least: 1,
    most: 255,
    preset: "_start",
};

/// The most pages of process 1's memory.
pub const PAGES: OptionRow = OptionRow {
    name: "pages",
    measure: Measure::Number,
    least: 0,
    most: 1_024,
    preset: "64",
};

/// The most fuel of process 1's life.
pub const FUEL: OptionRow = OptionRow {
    name: "fuel",
    measure: Measure::Number,
    least: 1,
    most: 1_000_000_000_000_000,
    preset: "1000000000",
};

/// The most traffic of process 1's calls.
pub const TRAFFIC: OptionRow = OptionRow {
    name: "traffic",
    measure: Measure::Number,
    least: 0,
    most: 1_099_511_627_776,
    preset: "67108864",
};

/// The most processes that have not ended, at once.
pub const LIVE: OptionRow = OptionRow {
    name: "live",
    measure: Measure::Number,
    least: 1,
    most: 4_096,
    preset: "1024",
};

/// How long a run may be idle.
pub const IDLE: OptionRow = OptionRow {
    name: "idle",
    measure: Measure::Number,
    least: 1,
    most: 1_000_000_000_000,
    preset: "100000",
};

static ROWS: [OptionRow; 7] = [WORKERS, ENTRY, PAGES, FUEL, TRAFFIC, LIVE, IDLE];

/// The options of `run`.
pub fn rows() -> &'static [OptionRow]
    ensures { map shown result.now ≡ table }
{
    &ROWS
}

/// The options of `solo`: all but the first, `--workers`.
pub fn solo_rows() -> &'static [OptionRow]
    ensures { map shown result.now ≡ solo_table }
{
    &ROWS[1..]
}

impl OptionRow {
    /// The measure of this value, where it has one and lies in the row's range.
    pub fn measured(&self, value: &str) -> Option<u64>
        ensures { result ≡ measured (shown self.now) value.now }
    {
        match self.measure {
            Measure::Number => number_between(value, self.least, self.most),
            Measure::Length => between(value.len() as u64, self.least, self.most),
        }
    }
}

/// The number that decimal digits write, where it fits 64 bits.
fn number(text: &str) -> Option<u64>
    ensures { result ≡ option_and_then (within 0 (2 ^ 64 - 1)) (number_of text.now) }
{
    if has_plus(text) {
        return None;
    }
    text.parse::<u64>().ok()
}

/// Whether a `+` stands first.
fn has_plus(text: &str) -> bool
    ensures { result ≡ (slice_index text.now 0 == 43) }
{
    match text.as_bytes() {
        [] => false,
        [first, ..] => *first == b'+',
    }
}

/// The number, where it lies between these.
fn between(n: u64, least: u64, most: u64) -> Option<u64>
    ensures { result ≡ within least most n }
{
    if least <= n && n <= most {
        Some(n)
    } else {
        None
    }
}

/// The number between these that decimal digits write.
pub fn number_between(text: &str, least: u64, most: u64) -> Option<u64>
    ensures { result ≡ option_and_then (within least most) (number_of text.now) }
{
    match number(text) {
        Some(n) => between(n, least, most),
        None => None,
    }
}
