//! The warnings: the level of each, its name, which is shown in `[..]` and is the `name` in JSON, and its
//! message. The conditions are in `checks` and, of warnings that compare lines or look at all of a crawler's
//! rules, in those that `candidates` calls. Only `robots_audit` gives those about sitemaps that are
//! denied, and about rules that can be deleted, which `robots_rules` finds.
ghost use Rattle.std.specs.Prelude.{◌≡◌, ◌<◌, length, map};
ghost use Rattle.robots_warnings.specs.{Internal.IsRowAt, declared.table.TheConstants.WARNINGS};
ghost use Rattle.robots_warnings.specs.Table.{all_levels, all_names, level_of, name_of};

use crate::rows::{COUNT, FIRST_COUNT, every_row, first_rows, later_rows};
use crate::texts::{examples, first_messages, later_messages};
use safe_output::level::Level;
use std::alloc::{AllocError, Global};

/// The reason for a warning. Each has a row in `every_row`.
#[derive(Clone, Copy, PartialEq, Eq)]
#[rattlefmt::skip]
pub enum Cause {
    // the file
    HtmlPage,
    Utf16Text,
    NoDirectives,
    EmptyFile,
    OnlyComments,
    FileTooLarge,
    NoUserAgent,
    DamagedByteOrderMark,
    NulInLine,
    // a URL
    UrlNotNormal,
    // an ignored line
    InvalidDelay,
    NoindexLine,
    NofollowLine,
    HostName,
    HostLine,
    RequestRateLine,
    VisitTimeLine,
    CleanParamLine,
    ContentSignalLine,
    ContentUsageLine,
    RobotVersionLine,
    CommentLine,
    LikeUserAgent,
    LikeAllow,
    LikeDisallow,
    LikeSitemap,
    LikeCrawlDelay,
    UnseenInName,
    EqualsSign,
    UnrecognizedLine,
    // the field name of a line
    NonstandardField,
    MissingColon,
    SpaceAroundValue,
    // the value of a user-agent line
    InvalidProductToken,
    UnusualProductToken,
    // a rule
    HashLeavesRoot,
    HashEmptiesRule,
    HashInRule,
    RuleNotUtf8,
    EqualsInRule,
    MissingSlash,
    UrlInPath,
    UrlAsRule,
    OddCharacter,
    UnencodedCharacter,
    QuoteAtEnd,
    QuotedRule,
    RegexWithoutSlash,
    QuestionMarks,
    RegexSyntax,
    StarAfterDollar,
    DollarNotAtEnd,
    NonstandardEscape,
    EscapedWildcard,
    EscapedDelimiter,
    DotSegment,
    // a rule or a sitemap
    SpaceInValue,
    CommaInValue,
    TagInValue,
    UnseenInValue,
    // a delay
    DelayNotation,
    DelayOverADay,
    // a sitemap
    SitemapNotAbsolute,
    SitemapNotPublic,
    HashCutsSitemap,
    SitemapDenied,
    RepeatedSitemap,
    RepeatedSitemapPastLimit,
    // any line
    SeveralDirectives,
    ControlInComment,
    CutLine,
    // the position of a line
    RuleBeforeUserAgent,
    EmptyGroup,
    DelayAboveStar,
    GroupSplitByDelay,
    GroupJoinedToNext,
    GroupPastSizeLimit,
    AllowedAndDisallowed,
    EmptyDisallow,
    // the groups
    RepeatedDelay,
    RepeatedDelayPastLimit,
    IgnoredDelay,
    ClosedSite,
    ClosedSiteToOthers,
    ClosedInOneReading,
    ClosedByStandard,
    ClosedByStandardToOthers,
    ClosedHomePage,
    ClosedHomePageToOthers,
    GroupWithoutStarRules,
    RepeatedRule,
    RepeatedPastLimit,
    WrongName,
    MisspelledName,
    VendorGroup,
    StarIgnoringCrawler,
    // a rule that can be deleted
    NeverDecides,
    MatchesNothing,
    AllowedAnyway,
    NotNeeded,
    NeedlessUndecided,
}

macro_rules! names {
    ($($cause:ident $level:ident $name:literal $($text:literal)*,)*) => {
        [$((Cause::$cause, Level::$level, $name)),*]
    };
}

/// The warnings with their levels and names.
pub static WARNINGS: [(Cause, Level, &str); COUNT] = every_row!(names);

type Row = (Cause, Level, &'static str);

/// Each function that names this long table takes a minute to prove, so no other does.
fn rows() -> &'static [Row]
    ensures length { length result.now ≡ length WARNINGS }
    ensures levels { map (λ row. row.1) result.now ≡ all_levels }
    ensures names { map (λ row. row.2.now) result.now ≡ all_names }
{
    &WARNINGS
}

fn row_at(rows: &'static [Row], number: usize) -> &'static Row
    requires { number < length rows.now }
    ensures { IsRowAt rows.now number result.now }
{
    &rows[number]
}

fn text_at(rows: &'static [(Cause, &'static str)], number: usize) -> &'static str {
    match rows.get(number) {
        Some(row) => row.1,
        None => "",
    }
}

pub fn is_name(name: &str) -> bool {
    rows().iter().any(|row| row.2 == name)
}

/// The reasons for all warnings, in the order of [`WARNINGS`].
pub fn causes(alloc: Global) -> Result<Vec<Cause>, AllocError> {
    let rows = rows();
    let mut causes = Vec::with_capacity(alloc, rows.len())?;
    for row in rows {
        causes.push(row.0)?;
    }
    Ok(causes)
}

impl Cause {
    fn row(self) -> &'static Row
        ensures level { result.now.1 ≡ level_of self }
        ensures name { result.now.2.now ≡ name_of self }
    {
        row_at(rows(), self as usize)
    }

    pub fn level(self) -> Level
        ensures { result ≡ level_of self }
    {
        self.row().1
    }

    pub fn name(self) -> &'static str
        ensures { result.now ≡ name_of self }
    {
        self.row().2
    }

    pub fn text(self) -> &'static str {
        match (self as usize).checked_sub(FIRST_COUNT) {
            Some(number) => text_at(later_messages(), number),
            None => text_at(first_messages(), self as usize),
        }
    }

    pub fn example(self) -> &'static str {
        text_at(examples(), self as usize)
    }
}
