//! Reads the names in a line: of operations and of params.

ghost use Rattle.std.specs.Prelude.{◌≡◌, bytes_eq};
ghost use Rattle.tl_beat.specs.statement.Line.{channel_named};
ghost use Rattle.tl_schedule.specs.code.FieldReading.{Gives, fields_behind, front};
ghost use Rattle.tl_schedule.specs.code.NameReading.{arithmetic_in, grow_in, intent_in, logical_in, prune_in, word_in};

use crate::field::next;
use tl_beat::channel::Channel;
use tl_params::param::{Arithmetic, Grow, Intent, Logical, Prune};

/// The word for an operation in a line.
#[derive(Clone, Copy)]
pub(crate) enum Word {
    Load,
    Store,
    Acquire,
    Whole,
    Release,
    Get,
    Put,
    Part,
    Arith,
    Logic,
    Hint,
    Deliver,
}

fn is(field: &[u8], name: &str) -> bool
    ensures { result ≡ bytes_eq field.now name.now }
{
    field == name.as_bytes()
}

fn word_of(field: &[u8]) -> Option<Word>
    ensures { result ≡ word_in field.now }
{
    if is(field, "load") {
        Some(Word::Load)
    } else if is(field, "store") {
        Some(Word::Store)
    } else if is(field, "acquire") {
        Some(Word::Acquire)
    } else if is(field, "whole") {
        Some(Word::Whole)
    } else if is(field, "release") {
        Some(Word::Release)
    } else if is(field, "get") {
        Some(Word::Get)
    } else if is(field, "put") {
        Some(Word::Put)
    } else if is(field, "part") {
        Some(Word::Part)
    } else if is(field, "arith") {
        Some(Word::Arith)
    } else if is(field, "logic") {
        Some(Word::Logic)
    } else if is(field, "intent") {
        Some(Word::Hint)
    } else if is(field, "deliver") {
        Some(Word::Deliver)
    } else {
        None
    }
}

fn grow(field: &[u8]) -> Option<Grow>
    ensures { result ≡ grow_in field.now }
{
    if is(field, Grow::NtoB.name()) {
        Some(Grow::NtoB)
    } else if is(field, Grow::NtoT.name()) {
        Some(Grow::NtoT)
    } else if is(field, Grow::BtoT.name()) {
        Some(Grow::BtoT)
    } else {
        None
    }
}

fn prune(field: &[u8]) -> Option<Prune>
    ensures { result ≡ prune_in field.now }
{
    if is(field, Prune::TtoB.name()) {
        Some(Prune::TtoB)
    } else if is(field, Prune::TtoN.name()) {
        Some(Prune::TtoN)
    } else if is(field, Prune::BtoN.name()) {
        Some(Prune::BtoN)
    } else {
        None
    }
}

fn arithmetic(field: &[u8]) -> Option<Arithmetic>
    ensures { result ≡ arithmetic_in field.now }
{
    if is(field, Arithmetic::Min.name()) {
        Some(Arithmetic::Min)
    } else if is(field, Arithmetic::Max.name()) {
        Some(Arithmetic::Max)
    } else if is(field, Arithmetic::MinU.name()) {
        Some(Arithmetic::MinU)
    } else if is(field, Arithmetic::MaxU.name()) {
        Some(Arithmetic::MaxU)
    } else if is(field, Arithmetic::Add.name()) {
        Some(Arithmetic::Add)
    } else {
        None
    }
}

fn logical(field: &[u8]) -> Option<Logical>
    ensures { result ≡ logical_in field.now }
{
    if is(field, Logical::Xor.name()) {
        Some(Logical::Xor)
    } else if is(field, Logical::Or.name()) {
        Some(Logical::Or)
    } else if is(field, Logical::And.name()) {
        Some(Logical::And)
    } else if is(field, Logical::Swap.name()) {
        Some(Logical::Swap)
    } else {
        None
    }
}

fn intent(field: &[u8]) -> Option<Intent>
    ensures { result ≡ intent_in field.now }
{
    if is(field, Intent::PrefetchRead.name()) {
        Some(Intent::PrefetchRead)
    } else if is(field, Intent::PrefetchWrite.name()) {
        Some(Intent::PrefetchWrite)
    } else {
        None
    }
}

pub(crate) fn channel(field: &[u8]) -> Option<Channel>
    ensures { result ≡ channel_named field.now }
{
    match field {
        [b'A'] => Some(Channel::A),
        [b'B'] => Some(Channel::B),
        [b'C'] => Some(Channel::C),
        [b'D'] => Some(Channel::D),
        [b'E'] => Some(Channel::E),
        _ => None,
    }
}

pub(crate) fn word_field(bytes: &[u8]) -> Option<(Word, &[u8])>
    ensures { Gives result (front word_in (fields_behind bytes.now)) }
{
    let (field, rest) = next(bytes)?;
    Some((word_of(field)?, rest))
}

pub(crate) fn grow_field(bytes: &[u8]) -> Option<(Grow, &[u8])>
    ensures { Gives result (front grow_in (fields_behind bytes.now)) }
{
    let (field, rest) = next(bytes)?;
    Some((grow(field)?, rest))
}

pub(crate) fn prune_field(bytes: &[u8]) -> Option<(Prune, &[u8])>
    ensures { Gives result (front prune_in (fields_behind bytes.now)) }
{
    let (field, rest) = next(bytes)?;
    Some((prune(field)?, rest))
}

pub(crate) fn arithmetic_field(bytes: &[u8]) -> Option<(Arithmetic, &[u8])>
    ensures { Gives result (front arithmetic_in (fields_behind bytes.now)) }
{
    let (field, rest) = next(bytes)?;
    Some((arithmetic(field)?, rest))
}

pub(crate) fn logical_field(bytes: &[u8]) -> Option<(Logical, &[u8])>
    ensures { Gives result (front logical_in (fields_behind bytes.now)) }
{
    let (field, rest) = next(bytes)?;
    Some((logical(field)?, rest))
}

pub(crate) fn intent_field(bytes: &[u8]) -> Option<(Intent, &[u8])>
    ensures { Gives result (front intent_in (fields_behind bytes.now)) }
{
    let (field, rest) = next(bytes)?;
    Some((intent(field)?, rest))
}

pub(crate) fn channel_field(bytes: &[u8]) -> Option<(Channel, &[u8])>
    ensures { Gives result (front channel_named (fields_behind bytes.now)) }
{
    let (field, rest) = next(bytes)?;
    Some((channel(field)?, rest))
}
