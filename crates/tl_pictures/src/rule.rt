//! The rules by their numbers in answers.

ghost use Rattle.std.specs.Prelude.{◌≡◌};
ghost use Rattle.tl_pictures.specs.statement.Named.{rule_with, memory_rule_with, commit_rule_with, name_with};

use tl_events::rule::CommitRule;
use tl_rules::memory_rule::MemoryRule;
use tl_rules::rule::Rule;

/// The rule with a number, from 1 on.
fn rule_with(number: u8) -> Option<Rule>
    ensures { result ≡ rule_with number }
{
    match number {
        1 => Some(Rule::L1),
        2 => Some(Rule::L2),
        3 => Some(Rule::L3),
        4 => Some(Rule::L4),
        5 => Some(Rule::L5),
        6 => Some(Rule::L6),
        7 => Some(Rule::L7),
        8 => Some(Rule::S1),
        9 => Some(Rule::H1),
        10 => Some(Rule::H2),
        11 => Some(Rule::H3),
        12 => Some(Rule::H4),
        13 => Some(Rule::H5),
        14 => Some(Rule::H6),
        15 => Some(Rule::H7),
        16 => Some(Rule::H8),
        17 => Some(Rule::H9),
        18 => Some(Rule::H10),
        19 => Some(Rule::H11),
        20 => Some(Rule::H12),
        21 => Some(Rule::H13),
        22 => Some(Rule::A1),
        23 => Some(Rule::A2),
        24 => Some(Rule::A3),
        _ => None,
    }
}

/// The rule between links with a number.
fn memory_rule_with(number: u8) -> Option<MemoryRule>
    ensures { result ≡ memory_rule_with number }
{
    match number {
        25 => Some(MemoryRule::M1),
        26 => Some(MemoryRule::M2),
        27 => Some(MemoryRule::M3),
        28 => Some(MemoryRule::M4),
        _ => None,
    }
}

/// The rule of stores and loads with a number.
fn commit_rule_with(number: u8) -> Option<CommitRule>
    ensures { result ≡ commit_rule_with number }
{
    match number {
        29 => Some(CommitRule::M5),
        30 => Some(CommitRule::M6),
        31 => Some(CommitRule::M7),
        _ => None,
    }
}

/// The name of the rule with a number; empty if there is none.
pub fn name_of(number: u8) -> &'static str
    ensures { result.now ≡ name_with number }
{
    if let Some(rule) = rule_with(number) {
        return rule.name();
    }
    match (memory_rule_with(number), commit_rule_with(number)) {
        (Some(rule), _) => rule.name(),
        (None, Some(rule)) => rule.name(),
        (None, None) => "",
    }
}
