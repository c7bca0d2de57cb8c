//! The answers of the library to C.

ghost use Rattle.std.specs.Prelude.{◌≡◌};
ghost use Rattle.tl_pictures.specs.statement.Answer.{rule_number, memory_rule_number, breach_number, broken, breaks};
ghost use Rattle.tl_pictures.specs.statement.Answer.{answer_of, judge_answer};
ghost use Rattle.tl_pictures.specs.statement.Answer.{commit_rule_number, commit_breach_number, breaks_commits};
ghost use Rattle.tl_pictures.specs.statement.Answer.{commit_answer};

use tl_commits::fault::CommitFault;
use tl_commits::rule::CommitBreach;
use tl_events::rule::CommitRule;
use tl_monitor::fault::MonitorFault;
use tl_rules::memory_rule::MemoryRule;
use tl_rules::rule::Rule;
use tl_together::breach::Breach;
use tl_together::fault::JudgeFault;

/// A code, and the number of the rule that a beat or a commit breaks; 0 if it breaks none.
#[repr(C)]
#[derive(Clone, Copy, Debug, PartialEq, Eq)]
pub struct Answer {
    pub code: u8,
    pub rule: u8,
}

/// The number of a rule, from 1 on.
fn number_of(rule: Rule) -> u8
    ensures { result ≡ rule_number rule }
{
    match rule {
        Rule::L1 => 1,
        Rule::L2 => 2,
        Rule::L3 => 3,
        Rule::L4 => 4,
        Rule::L5 => 5,
        Rule::L6 => 6,
        Rule::L7 => 7,
        Rule::S1 => 8,
        Rule::H1 => 9,
        Rule::H2 => 10,
        Rule::H3 => 11,
        Rule::H4 => 12,
        Rule::H5 => 13,
        Rule::H6 => 14,
        Rule::H7 => 15,
        Rule::H8 => 16,
        Rule::H9 => 17,
        Rule::H10 => 18,
        Rule::H11 => 19,
        Rule::H12 => 20,
        Rule::H13 => 21,
        Rule::A1 => 22,
        Rule::A2 => 23,
        Rule::A3 => 24,
    }
}

/// The number of a rule between links, after those of the links.
fn number_of_memory(rule: MemoryRule) -> u8
    ensures { result ≡ memory_rule_number rule }
{
    match rule {
        MemoryRule::M1 => 25,
        MemoryRule::M2 => 26,
        MemoryRule::M3 => 27,
        MemoryRule::M4 => 28,
    }
}

/// The number of a rule of a link or between links.
fn number_of_breach(breach: Breach) -> u8
    ensures { result ≡ breach_number breach }
{
    match breach {
        Breach::OfLink(rule) => number_of(rule),
        Breach::OfMemory(rule) => number_of_memory(rule),
    }
}

/// The number of a rule of stores and loads, after those between links.
fn number_of_commits(rule: CommitRule) -> u8
    ensures { result ≡ commit_rule_number rule }
{
    match rule {
        CommitRule::M5 => 29,
        CommitRule::M6 => 30,
        CommitRule::M7 => 31,
    }
}

/// The number of a rule of beats, or of stores and loads.
fn number_of_commit_breach(breach: CommitBreach) -> u8
    ensures { result ≡ commit_breach_number breach }
{
    match breach {
        CommitBreach::OfBeats(breach) => number_of_breach(breach),
        CommitBreach::OfCommits(rule) => number_of_commits(rule),
    }
}

impl Answer {
    /// Done.
    pub const OK: Answer = Answer { code: 0, rule: 0 };

    /// An argument is out of range, and nothing changed.
    pub const BAD: Answer = Answer { code: 2, rule: 0 };

    /// There is no memory, and nothing changed.
    pub const NO_MEMORY: Answer = Answer { code: 3, rule: 0 };

    /// There is nothing to answer with.
    pub const NOTHING: Answer = Answer { code: 5, rule: 0 };

    /// A beat names a block, a source or a sink for which no number is left, and nothing changed.
    pub const TOO_MANY: Answer = Answer { code: 6, rule: 0 };

    /// An earlier beat broke a rule.
    pub const CLOSED: Answer = Answer { code: 4, rule: 0 };

    /// The beat breaks the rule.
    pub fn broken(rule: Rule) -> Answer
        ensures { result ≡ broken rule }
    {
        Answer {
            code: 1,
            rule: number_of(rule),
        }
    }

    /// The answer to a beat that a monitor judged.
    pub fn of(judged: Result<(), MonitorFault>) -> Answer
        ensures { result ≡ answer_of judged }
    {
        match judged {
            Ok(()) => Answer::OK,
            Err(MonitorFault::Broken(rule)) => Answer::broken(rule),
            Err(MonitorFault::Levels) => Answer::BAD,
            Err(MonitorFault::Memory) => Answer::NO_MEMORY,
            Err(MonitorFault::Closed) => Answer::CLOSED,
        }
    }

    /// The beat breaks the rule, of its link or between links.
    pub fn breaks(breach: Breach) -> Answer
        ensures { result ≡ breaks breach }
    {
        Answer {
            code: 1,
            rule: number_of_breach(breach),
        }
    }

    /// The answer to a beat that a judge of all links judged.
    pub fn of_judge(judged: Result<(), JudgeFault>) -> Answer
        ensures { result ≡ judge_answer judged }
    {
        match judged {
            Ok(()) => Answer::OK,
            Err(JudgeFault::Broken(breach)) => Answer::breaks(breach),
            Err(JudgeFault::Levels) => Answer::BAD,
            Err(JudgeFault::Memory) => Answer::NO_MEMORY,
            Err(JudgeFault::Closed) => Answer::CLOSED,
        }
    }

    /// The event breaks the rule, of beats or of stores and loads.
    fn breaks_commits(breach: CommitBreach) -> Answer
        ensures { result ≡ breaks_commits breach }
    {
        Answer {
            code: 1,
            rule: number_of_commit_breach(breach),
        }
    }

    /// The answer to a beat or a commit that a judge of both judged.
    pub fn of_commits(judged: Result<(), CommitFault>) -> Answer
        ensures { result ≡ commit_answer judged }
    {
        match judged {
            Ok(()) => Answer::OK,
            Err(CommitFault::Broken(breach)) => Answer::breaks_commits(breach),
            Err(CommitFault::Levels) => Answer::BAD,
            Err(CommitFault::Memory) => Answer::NO_MEMORY,
        }
    }
}
