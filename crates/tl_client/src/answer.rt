//! A client's compact answer to a beat. The caller keeps the bytes of a copy or of a response.

ghost use Rattle.std.specs.Prelude.{ℕ, List, ◌≡◌, is_some};
ghost use Rattle.tl_client.specs.statement.Answer.{finish_of_ending, verdict_of, message_of};
ghost use Rattle.tl_client.specs.statement.Answer.{told, told_by, IsTellable};
ghost use Rattle.tl_client.specs.code.Telling.{bytes_of, done_by, probed_by, sink_in};

use crate::send::probe_ack;
use crate::verdict::{Finish, Verdict};
use tl_beat::opcode::{OpB, OpC};
use tl_burst::message::{Message, MessageC, MessageE};
use tl_rules::key::block_at;
use tl_rules::param::Report;
use tl_rules::perm::Perm;
use tl_rules::rule::Rule;

/// The result of an operation other than an Acquire.
#[derive(Clone, Copy, Debug, PartialEq, Eq)]
pub enum Ending {
    /// AccessAck.
    Ack,
    /// HintAck.
    Hint,
    /// AccessAckData of an access of this size. The caller has its bytes, with zeros after them.
    Data(u8),
    /// ReleaseAck.
    Released,
}

/// The answer to a beat that isn't refused. Its 64 bytes are kept by the caller.
#[derive(Clone, Copy, Debug, PartialEq, Eq)]
pub enum Answer {
    /// The beat has to wait, and nothing changed.
    Stalled,
    /// The beat was taken. It completes no response, and no message is handed out.
    Taken,
    /// A Probe was taken, and its ProbeAck is handed out. The caller has the bytes of the copy.
    Probed {
        opcode: OpB,
        held: Perm,
        report: Report,
        address: u32,
    },
    /// The beat completes the Grant to the request with this source, and its GrantAck is handed out.
    Granted {
        source: u8,
        perm: Perm,
        sink: u8,
    },
    /// The beat completes another response, to the request or Release with this source.
    Ended {
        source: u8,
        ending: Ending,
    },
}

impl Ending {
    /// The result of the operation, with these bytes.
    pub fn finish(self, bytes: &[u8; 64]) -> Finish
        ensures { result ≡ finish_of_ending self bytes.now }
    {
        match self {
            Ending::Ack => Finish::Ack,
            Ending::Hint => Finish::Hint,
            Ending::Data(size) => Finish::Data(size, *bytes),
            Ending::Released => Finish::Released,
        }
    }
}

/// The compact answer to a Probe, by its ProbeAck. If that has data, the Probe was a ProbeBlock and Trunk was held.
fn probed<const W: usize>(report: &MessageC<W>) -> Answer
    ensures { result ≡ probed_by report.now }
{
    let (opcode, held) = match report.opcode {
        OpC::ProbeAckData => (OpB::ProbeBlock, Perm::Trunk),
        _ => (OpB::ProbePerm, Perm::None),
    };
    Answer::Probed {
        opcode,
        held,
        report: Report::from_param(report.param).unwrap_or(Report::NtoN),
        address: report.address,
    }
}

/// The sink of a GrantAck.
fn sink_in<const W: usize>(message: Option<Message<W>>) -> u8
    ensures { result ≡ sink_in message.entry }
{
    match message {
        Some(Message::E(ack)) => ack.sink,
        _ => 0,
    }
}

/// The compact answer to the last beat of a response. Only a Grant hands out a message, its GrantAck.
fn done<const W: usize>(
    source: u8,
    finish: Finish,
    message: Option<Message<W>>,
    bytes: &mut [u8; 64],
) -> Answer
    ensures answer { result ≡ done_by source finish message.entry }
    ensures bytes { bytes.new ≡ bytes_of finish bytes.old }
{
    let ending = match finish {
        Finish::Ack => Ending::Ack,
        Finish::Hint => Ending::Hint,
        Finish::Released => Ending::Released,
        Finish::Data(size, data) => {
            *bytes = data;
            Ending::Data(size)
        }
        Finish::Granted(perm) => {
            let sink = sink_in(message);
            return Answer::Granted { source, perm, sink };
        }
    };
    Answer::Ended { source, ending }
}

impl Answer {
    /// The compact answer for a verdict and a message, if there is one. Writes the bytes of the answer into `bytes`.
    pub fn of<const W: usize>(
        verdict: Verdict,
        message: Option<Message<W>>,
        bytes: &mut [u8; 64],
    ) -> Answer
        ensures { IsTellable verdict message.entry → told result bytes.new ≡ (verdict, message.entry) }
    {
        match (verdict, message) {
            (Verdict::Stalled, _) => Answer::Stalled,
            (Verdict::Taken, Some(Message::C(report))) => {
                *bytes = report.payload;
                probed(&report)
            }
            (Verdict::Taken, _) => Answer::Taken,
            (Verdict::Done(source, finish), message) => done(source, finish, message, bytes),
        }
    }

    /// The verdict of the answer, with these bytes.
    pub fn verdict(self, bytes: &[u8; 64]) -> Verdict
        ensures { result ≡ verdict_of self bytes.now }
    {
        match self {
            Answer::Stalled => Verdict::Stalled,
            Answer::Taken | Answer::Probed { .. } => Verdict::Taken,
            Answer::Granted { source, perm, .. } => Verdict::Done(source, Finish::Granted(perm)),
            Answer::Ended { source, ending } => Verdict::Done(source, ending.finish(bytes)),
        }
    }

    /// Whether the answer hands out a message.
    pub fn hands_out(self) -> bool
        ensures { (w : ℕ) (bytes : List ℕ) → result ≡ is_some (message_of {w = w} self bytes) }
    {
        matches!(self, Answer::Probed { .. } | Answer::Granted { .. })
    }

    /// The message that the answer hands out, with these bytes.
    pub fn message<const W: usize>(self, bytes: &[u8; 64]) -> Option<Message<W>>
        ensures { result ≡ message_of self bytes.now }
    {
        match self {
            Answer::Stalled | Answer::Taken | Answer::Ended { .. } => None,
            Answer::Probed {
                opcode,
                held,
                report,
                address,
            } => Some(Message::C(probe_ack(opcode, held, report, block_at(address), *bytes))),
            Answer::Granted { sink, .. } => Some(Message::E(MessageE { sink })),
        }
    }
}

/// The verdict and the message of a compact answer with these bytes, or the rule that refuses the beat.
pub fn tell<const W: usize>(
    answer: Result<Answer, Rule>,
    bytes: &[u8; 64],
) -> Result<(Verdict, Option<Message<W>>), Rule>
    ensures { result ≡ told_by answer bytes.now }
{
    let answer = answer?;
    Ok((answer.verdict(bytes), answer.message(bytes)))
}
