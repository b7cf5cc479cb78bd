// The commands of a script, as they are written.
use algebra::{Algebra, House, NO_HOUSE_RULE, ReadingSet, Standard, set_of};
use std::alloc::{AllocError, Global};
use std::fmt;
use std::str::from_utf8;

/// Sets and entries are kept as words: what they mean depends on what is open when the command is performed. Files are kept as paths.
#[derive(Clone, Copy)]
pub enum Command<'a> {
    Open(House<Standard>),
    Ask(Question<'a>),
    Do(Order<'a>),
    Load(&'a str),
    Write(&'a str),
    /// The whole line, whose numbers stand behind the verb.
    Fits(&'a str),
    List,
}

/// What asks for a set and changes nothing.
#[derive(Clone, Copy)]
pub enum Question<'a> {
    Universe,
    Converse(&'a str),
    Compose(&'a str, &'a str),
    Look(&'a str, &'a str),
    Given(&'a str, &'a str),
}

/// What calls the programme.
#[derive(Clone, Copy)]
pub enum Order<'a> {
    Entry(&'a [u8]),
    Tie(Bond<'a>),
    Try(Bond<'a>),
}

/// Two entries, and the set that is to stand from the first to the second.
#[derive(Clone, Copy)]
pub struct Bond<'a> {
    pub first: &'a str,
    pub set: &'a str,
    pub second: &'a str,
}

/// What was expected where a line was not understood.
#[derive(Clone, Copy, PartialEq, Eq, Debug)]
pub enum Expected {
    Command,
    Algebra,
    HouseRule,
    NoSet,
    OneSet,
    TwoSets,
    Bond,
    TwoEntries,
    File,
    Numbers,
    Timed,
    ListAlone,
    OpenFirst,
}

impl Expected {
    fn text(self) -> &'static str {
        match self {
            Expected::Command =>
                "open, universe, converse, compose, entry, tie, try, look, given, load, write, fits or list",
            Expected::Algebra => "open, then instants, spans or regions",
            Expected::HouseRule => "house and a mask, any number of times, behind the algebra",
            Expected::NoSet => "universe alone",
            Expected::OneSet => "converse and a set, in letters or as 0x and hexadecimal digits",
            Expected::TwoSets => "compose and two sets, in letters or as 0x and hexadecimal digits",
            Expected::Bond =>
                "an entry, a set in letters or as 0x and hexadecimal digits, and an entry",
            Expected::TwoEntries => "two entries, each by its name or by its number as @3",
            Expected::File => "the path of a file, in text, behind one space",
            Expected::Numbers => "fits and whole numbers of 32 bits, a group for each entry",
            Expected::Timed => "instants or spans to be open, with no house rule",
            Expected::ListAlone => "list alone",
            Expected::OpenFirst => "open before any other command",
        }
    }
}

impl fmt::Display for Expected {
    fn fmt<W: fmt::Write>(&self, f: &mut fmt::Formatter<W>) -> fmt::Result {
        f.write_str(self.text())
    }
}

impl<'a> Command<'a> {
    /// The command on a line, which comes as its bytes and as text; none where the line is blank or a comment.
    pub(crate) fn read(line: &'a [u8], text: &'a str) -> Result<Option<Command<'a>>, Expected> {
        match text.split_ascii_whitespace().next() {
            Some(verb) if !verb.starts_with('#') => Ok(Some(Command::with_verb(verb, line, text)?)),
            _ => Ok(None),
        }
    }

    fn with_verb(verb: &str, line: &'a [u8], text: &'a str) -> Result<Command<'a>, Expected> {
        let mut words = text.split_ascii_whitespace().skip(1);
        let rest = (words.next(), words.next(), words.next(), words.next());
        let command = match (verb, rest) {
            ("open", _) => Command::Open(read_algebra(text)?),
            ("entry", _) => Command::Do(Order::Entry(behind(verb, line))),
            // One arm for a verb, also for `try`, which reads as `tie` does.
            ("tie", (Some(first), Some(set), Some(second), None)) => Command::Do(Order::Tie(Bond {
                first,
                set,
                second,
            })),
            ("try", (Some(first), Some(set), Some(second), None)) => Command::Do(Order::Try(Bond {
                first,
                set,
                second,
            })),
            ("universe", (None, ..)) => Command::Ask(Question::Universe),
            ("converse", (Some(set), None, ..)) => Command::Ask(Question::Converse(set)),
            ("compose", (Some(first), Some(second), None, _)) => Command::Ask(Question::Compose(
                first, second,
            )),
            ("look", (Some(first), Some(second), None, _)) => Command::Ask(Question::Look(
                first, second,
            )),
            ("given", (Some(first), Some(second), None, _)) => Command::Ask(Question::Given(
                first, second,
            )),
            ("load", (Some(_), ..)) => Command::Load(read_path(behind(verb, line))?),
            ("write", (Some(_), ..)) => Command::Write(read_path(behind(verb, line))?),
            ("fits", _) => Command::Fits(text),
            ("list", (None, ..)) => Command::List,
            _ => return Err(expected_behind(verb)),
        };
        Ok(command)
    }
}

fn expected_behind(verb: &str) -> Expected {
    match verb {
        "universe" => Expected::NoSet,
        "converse" => Expected::OneSet,
        "compose" => Expected::TwoSets,
        "tie" | "try" => Expected::Bond,
        "look" | "given" => Expected::TwoEntries,
        "load" | "write" => Expected::File,
        "list" => Expected::ListAlone,
        _ => Expected::Command,
    }
}

// All that stands behind the verb and one space, as it came.
fn behind<'a>(verb: &str, line: &'a [u8]) -> &'a [u8] {
    match line.trim_ascii_start().strip_prefix(verb.as_bytes()) {
        Some([_, rest @ ..]) => rest,
        _ => &[],
    }
}

fn read_path(bytes: &[u8]) -> Result<&str, Expected> {
    from_utf8(bytes).map_err(|_| Expected::File)
}

// `open ALGEBRA`, then any number of `house MASK`. Rules one over the other are the one rule of all their masks.
fn read_algebra(text: &str) -> Result<House<Standard>, Expected> {
    let mut words = text.split_ascii_whitespace().skip(1);
    let below = words
        .next()
        .and_then(|name| name.parse::<Standard>().ok())
        .ok_or(Expected::Algebra)?;
    let code = below.stamp().code;
    let mut mask = NO_HOUSE_RULE;
    while let Some(word) = words.next() {
        if word != "house" {
            return Err(Expected::HouseRule);
        }
        mask &= words
            .next()
            .and_then(|set| read_set(code, set))
            .ok_or(Expected::HouseRule)?;
    }
    Ok(House { below, mask })
}

/// A set in the letters of the algebra with this code, or as 0x and hexadecimal digits.
pub(crate) fn read_set(code: u8, text: &str) -> Option<ReadingSet> {
    match text.strip_prefix("0x") {
        Some(digits) if digits.starts_with('+') => None,
        Some(digits) => u32::from_str_radix(digits, 16).ok(),
        None => set_of(code, text.as_bytes()),
    }
}

/// The numbers behind the verb of a line.
// Two results, one in the other: memory that runs out is the machine's, a word that is no number the script's.
pub(crate) fn read_numbers(
    heap: Global,
    text: &str,
) -> Result<Result<Vec<i32>, Expected>, AllocError> {
    let mut numbers = Vec::new(heap);
    for word in text.split_ascii_whitespace().skip(1) {
        match word.parse::<i32>() {
            Ok(number) => numbers.push(number)?,
            Err(_) => return Ok(Err(Expected::Numbers)),
        }
    }
    Ok(Ok(numbers))
}
