//! Cleanings: Releases by which a client writes its copy back and keeps it.

ghost use Rattle.std.specs.Prelude.{◌≡◌, false, List, slice_get};
ghost use Rattle.tl_params.specs.statement.Param.{report_named};
ghost use Rattle.tl_manager.specs.code.Admission.{admission_of};
ghost use Rattle.tl_manager.specs.statement.Holders;
ghost use Rattle.tl_manager.specs.statement.Offer.{Breaks, Judgement, is_waiting};
ghost use Rattle.tl_partner.specs.statement.Cleaning;
ghost use Rattle.tl_partner.specs.statement.Partner.{cleans, held_back};
ghost use Rattle.tl_beat.specs.declared.beat.Beat.{Beat};

use tl_beat::beat::Beat;
use tl_manager::manager::admission::Admission;
use tl_rules::key::block_at;
use tl_rules::kind::is_release;
use tl_rules::liberties::Liberties;
use tl_rules::param::Report;
use tl_rules::perm::Perm;
use tl_rules::rule::Rule;

/// Whether a report leaves the permission from which it starts.
fn keeps_held(param: u8) -> bool
    ensures { result ≡ Cleaning.keeps_held (report_named param) }
{
    match Report::from_param(param) {
        None => false,
        Some(report) => report.left() == report.right(),
    }
}

/// Whether a beat is of a Release whose report leaves the permission from which it starts.
pub fn is_cleaning<const W: usize>(liberties: Liberties, beat: &Beat<W>) -> bool
    ensures { result ≡ Cleaning.is_cleaning liberties beat.now }
{
    match beat {
        Beat::C(x) => liberties.reports && is_release(x.opcode) && keeps_held(x.param),
        Beat::A(_) | Beat::B(_) | Beat::D(_) | Beat::E(_) => false,
    }
}

/// Whether the permission is Branch or Trunk.
pub fn has_copy(perm: Perm) -> bool
    ensures { result ≡ Holders.has_copy perm }
{
    matches!(perm, Perm::Branch | Perm::Trunk)
}

/// The rule that an Acquire of a block breaks while the block is being cleaned, by its judgement otherwise.
pub fn rule_held_back(judged: Result<Admission, Rule>) -> Rule
    ensures { (j : Judgement) → judged ≡ admission_of j → is_waiting j ≡ false → held_back j ≡ Breaks result }
{
    match judged {
        Err(Rule::H5 | Rule::A1 | Rule::A2) => Rule::H4,
        Err(rule) => rule,
        Ok(_) => Rule::H4,
    }
}

/// Whether a message of channel C is of a block, by its newest beat.
pub fn cleans<const W: usize>(block: u32, newest: Option<Beat<W>>) -> bool
    ensures { (burst : List (Beat W)) → newest.entry ≡ slice_get burst 0 → result ≡ cleans block burst }
{
    match newest {
        None => false,
        Some(Beat::C(x)) => block_at(x.address) == block,
        Some(Beat::A(_) | Beat::B(_) | Beat::D(_) | Beat::E(_)) => false,
    }
}
