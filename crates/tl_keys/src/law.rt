//! A law: a checker that follows one source, one sink and one block finds each fault.

ghost use Rattle.tl_keys.specs.statement.OneKey.{OneKey};

/// After a history that breaks no rule, a message breaks a rule of order exactly if it breaks it after the messages
/// with the one source, sink or block on which the rule depends.
pub fn speaks_of_one_key<const W: usize>()
    ensures { OneKey W }
{}
