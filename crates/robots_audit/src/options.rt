//! The options and arguments of `robots_audit`.
use audit_core::request::Format;
use clap::builder::ValueParser;
use clap::{Arg, ArgAction, Command};
use std::alloc::{AllocError, Global};

/// What `--help` calls the value of an option or an argument, and what it can be.
#[derive(Clone, Copy)]
enum Value {
    Absent,
    /// And the option has this short name.
    AbsentAs(char),
    /// That of an argument, and not of an option.
    Argument(&'static str),
    /// Those of an argument.
    Arguments(&'static str),
    Text(&'static str),
    /// The option needs this other one, which follows what the text is called.
    TextWith(&'static str, &'static str),
    /// The option needs this other one.
    AbsentWith(&'static str),
    /// A text each time that the option is given.
    Repeated(&'static str),
    /// A text each time that the option is given; and another name of the option.
    RepeatedAs(&'static str, &'static str),
    /// One of these words.
    OneOf(&'static str, &'static [&'static str]),
    /// One of these words, which can only follow a `=`, as FILE may follow the option. Without a `=`, the
    /// last field is the value.
    OneOfAfterEquals(&'static str, &'static [&'static str], &'static str),
}

/// An option or an argument.
struct Parameter {
    /// The name by which its values are read, and the long one of an option.
    id: &'static str,
    value: Value,
    help: &'static str,
    /// Lists of options and arguments that can't be given with it, by their ids. Of two that exclude each
    /// other, one names the other.
    excludes: &'static [&'static [&'static str]],
}

const OF_QUERIES: &[&str] = &["url", "agent", "known-crawlers", "urls-from"];

/// The options of an audit that are about warnings and the form of the report.
const OF_AUDITS: &[&str] = &[
    "denied", "quiet", "html", "sarif", "date", "color", "strict", "needless", "only", "ignore",
];

/// What every report on a file can have.
const OF_FILES: &[&str] = &["file", "format", "json", "github", "expect", "compare"];

/// The arguments in their order, and the options in that of the help.
const PARAMETERS: &[Parameter] = &[
    Parameter {
        id: "file",
        value: Value::Argument("FILE"),
        help: "The robots.txt file (-: standard input); left out with --list-warnings and --explain",
        excludes: &[],
    },
    Parameter {
        id: "url",
        value: Value::Arguments("URL"),
        help: "URLs or paths to check",
        excludes: &[],
    },
    Parameter {
        id: "urls-from",
        value: Value::Text("FILE"),
        help: "Check or compare the URLs in this file too, one per line (-: standard input)",
        excludes: &[],
    },
    Parameter {
        id: "denied",
        value: Value::Absent,
        help: "List only the URLs that are denied and, in text, crawlers with such URLs or a rejected file",
        excludes: &[],
    },
    Parameter {
        id: "agent",
        value: Value::RepeatedAs("NAME", "user-agent"),
        help: "Report on this crawler, * for any without a group of its own; may be repeated (default: * and \
            every crawler that FILE names)",
        excludes: &[],
    },
    Parameter {
        id: "known-crawlers",
        value: Value::Absent,
        help: "Report on * and all crawlers that this program knows, such as Googlebot and GPTBot",
        excludes: &[&["agent"]],
    },
    Parameter {
        id: "quiet",
        value: Value::AbsentAs('q'),
        help: "With one --agent: don't list the lines of the file (\"lines\" of JSON is null)",
        excludes: &[],
    },
    Parameter {
        id: "format",
        value: Value::OneOf("FORMAT", Format::NAMES),
        help: "How to write the report (default: text)",
        excludes: &[],
    },
    Parameter {
        id: "json",
        value: Value::Absent,
        help: "Means --format json",
        excludes: &[&["format"]],
    },
    Parameter {
        id: "html",
        value: Value::Absent,
        help: "Means --format html",
        excludes: &[&["format", "json"]],
    },
    Parameter {
        id: "github",
        value: Value::Absent,
        help: "Means --format github",
        excludes: &[&["format", "json", "html"]],
    },
    Parameter {
        id: "sarif",
        value: Value::Absent,
        help: "Means --format sarif",
        excludes: &[&["format", "json", "html", "github"]],
    },
    Parameter {
        id: "date",
        value: Value::TextWith("TEXT", "html"),
        help: "With --html: write this date on the page",
        excludes: &[&["format", "json"]],
    },
    Parameter {
        id: "color",
        value: Value::OneOf("WHEN", &["auto", "always", "never"]),
        help: "Color the levels of warnings; auto (default): on a terminal, unless NO_COLOR has a value or \
            TERM is dumb",
        excludes: &[],
    },
    Parameter {
        id: "strict",
        value: Value::OneOfAfterEquals("LEVEL", &["error", "warning", "note"], "warning"),
        help: "Exit with status 3 if there is a warning at this level (default: warning) or a more serious \
            one; LEVEL needs the =",
        excludes: &[],
    },
    Parameter {
        id: "needless",
        value: Value::Absent,
        help: "Also look for rules that can be deleted, as --only needless-rule does",
        excludes: &[],
    },
    Parameter {
        id: "only",
        value: Value::Repeated("NAME"),
        help: "Give only warnings with this name; may be repeated",
        excludes: &[],
    },
    Parameter {
        id: "ignore",
        value: Value::Repeated("NAME"),
        help: "Leave out all warnings with this name, even errors; may be repeated, but not with a \
            name of --only",
        excludes: &[],
    },
    Parameter {
        id: "expect",
        value: Value::Text("FILE"),
        help: "Check instead the lines \"allow AGENT URL\", \"deny AGENT URL\", \"allow-all AGENT PATTERN\" \
            and \"deny-all AGENT PATTERN\" of this file (-: standard input)",
        excludes: &[OF_QUERIES, OF_AUDITS],
    },
    Parameter {
        id: "compare",
        value: Value::Text("OLD"),
        help: "Report instead what differs from OLD (-: standard input) to FILE",
        excludes: &[&["expect"], OF_AUDITS],
    },
    Parameter {
        id: "only-verdicts",
        value: Value::AbsentWith("compare"),
        help: "With --compare: exit with status 1 only if the verdict of a URL may change",
        excludes: &[],
    },
    Parameter {
        id: "list-warnings",
        value: Value::Absent,
        help: "List all warnings with their levels and messages",
        excludes: &[OF_QUERIES, OF_AUDITS, OF_FILES],
    },
    Parameter {
        id: "explain",
        value: Value::Text("NAME"),
        help: "Show the level, the message and an example of the warning with this name",
        excludes: &[OF_QUERIES, OF_AUDITS, OF_FILES, &["list-warnings"]],
    },
];

fn named<'a>(arg: Arg<'a>, id: &'a str, value: Value) -> Arg<'a> {
    match value {
        Value::Argument(_) | Value::Arguments(_) => arg,
        Value::AbsentAs(short) => arg.short(short).long(id),
        _ => arg.long(id),
    }
}

fn repeated<'a>(arg: Arg<'a>, name: &'a str) -> Arg<'a> {
    arg.value_name(name).action(ArgAction::Append)
}

fn one_of<'a>(arg: Arg<'a>, name: &'a str, words: &'static [&'static str]) -> Arg<'a> {
    arg.value_name(name).value_parser(ValueParser::Names(words))
}

/// `missing` is the value without a `=`.
fn after_equals<'a>(arg: Arg<'a>, missing: &'a str) -> Arg<'a> {
    arg.num_args(0..=1)
        .require_equals(true)
        .default_missing_value(missing)
}

fn with_value<'a>(arg: Arg<'a>, value: Value) -> Result<Arg<'a>, AllocError> {
    Ok(match value {
        Value::Absent | Value::AbsentAs(_) => arg.action(ArgAction::SetTrue),
        Value::AbsentWith(other) => arg.action(ArgAction::SetTrue).requires_arg(other)?,
        Value::Argument(name) | Value::Text(name) => arg.value_name(name),
        Value::TextWith(name, other) => arg.value_name(name).requires_arg(other)?,
        Value::Arguments(name) => arg.value_name(name).num_args(0..),
        Value::RepeatedAs(name, other) => repeated(arg, name).visible_alias(other)?,
        Value::Repeated(name) => repeated(arg, name),
        Value::OneOf(name, words) => one_of(arg, name, words),
        Value::OneOfAfterEquals(name, words, missing) => {
            after_equals(one_of(arg, name, words), missing)
        }
    })
}

fn excluding<'a>(mut arg: Arg<'a>, lists: &[&[&'a str]]) -> Result<Arg<'a>, AllocError> {
    for ids in lists {
        arg = arg.conflicts_with_all(ids)?;
    }
    Ok(arg)
}

impl Parameter {
    fn arg<'a>(&self, alloc: Global) -> Result<Arg<'a>, AllocError> {
        let arg = Arg::new(alloc, self.id).help(self.help);
        let arg = with_value(named(arg, self.id, self.value), self.value)?;
        excluding(arg, self.excludes)
    }
}

pub(crate) fn with_options<'a>(
    alloc: Global,
    mut called: Command<'a>,
) -> Result<Command<'a>, AllocError> {
    for parameter in PARAMETERS {
        called = called.arg(parameter.arg(alloc)?)?;
    }
    Ok(called)
}
