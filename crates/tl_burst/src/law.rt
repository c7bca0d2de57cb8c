//! Laws: how the beats of a channel split into messages.

ghost use Rattle.std.specs.Prelude.{List, ◌≡◌};
ghost use Rattle.tl_beat.specs.declared.beat.Beat.{Beat};
ghost use Rattle.tl_beat.specs.declared.channel.Channel.{Channel};
ghost use Rattle.tl_beat.specs.statement.Width.{IsWidth};
ghost use Rattle.tl_burst.specs.declared.message.Message.{Message};
ghost use Rattle.tl_burst.specs.statement.Messages;
ghost use Rattle.tl_burst.specs.statement.Messages.{History, Splits, carried_on};

/// A list of beats splits in only one way into messages and a rest. For the beats of a channel the rest is its
/// unfinished burst.
pub fn split_once<const W: usize>()
    requires { IsWidth W }
    ensures once { (beats : List (Beat W)) (messages others : List (Message W)) (rest other : List (Beat W)) →
        Splits beats messages rest → Splits beats others other → (messages ≡ others) × (rest ≡ other) }
    ensures unfinished { (ch : Channel) (t : History W) (messages : List (Message W)) (rest : List (Beat W)) →
        Splits (carried_on ch t) messages rest → rest ≡ Messages.unfinished ch t }
{}
