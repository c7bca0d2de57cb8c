//! The accesses to a block whose answers began before their requests were complete.

ghost use Rattle.std.specs.Prelude.{ℕ, true, Some, ◌∷◌, ◌≡◌, length, IfOk, option_copied};
ghost use Rattle.tl_beat.specs.declared.beat.Beat.{Beat};
ghost use Rattle.tl_beat.specs.declared.beat.Beat.TheVariants as beat;
ghost use Rattle.tl_beat.specs.declared.beat.BeatD.{BeatD};
ghost use Rattle.tl_beat.specs.declared.beat.Link.{Link};
ghost use Rattle.tl_beat.specs.declared.channel.Channel.TheVariants as channel;
ghost use Rattle.tl_burst.specs.statement.Messages.{unfinished};
ghost use Rattle.tl_bytes.specs.statement.Early.{outruns};
ghost use Rattle.tl_memory.specs.code.Early as early;
ghost use Rattle.tl_memory.specs.code.Taking.{IsResponse, IsSettlement, with_next};
ghost use Rattle.tl_memory.specs.statement.Known.{KnowsState, KnowsUnseen};
ghost use Rattle.tl_rules.specs.declared.past.Request.{Request};
ghost use Rattle.tl_rules.specs.statement.Conformance.{Trace, on_link};
ghost use Rattle.tl_rules.specs.statement.History.{ends};

use crate::block::BlockState;
use crate::boxed::BoxedList;
use crate::early::{Asking, OutrunAccess, append_outrun_but, find_outrun};
use crate::next_state::NextState;
use std::alloc::{AllocError, Global};
use tl_beat::beat::Link;
use tl_bytes::standing::Standing;

impl<const W: usize> BlockState<W> {
    /// The access with this source on a link whose answer outran its request, if there is one.
    pub fn outrun_of(&self, link: Link, source: u8) -> Option<&OutrunAccess>
        ensures { option_copied result ≡ early.outrun_in link.0 source self.now.outrun }
    {
        find_outrun(self.outrun.as_slice(), link, source)
    }

    /// The change by a beat of an answer that comes before this request is complete, whose last beat it is or not. The
    /// error means that there is no memory left.
    pub fn outrun(
        &self,
        alloc: Global,
        link: Link,
        asking: &Asking,
        answered: bool,
    ) -> Result<NextState<W>, AllocError>
        ensures { IfOk result (λ next. (n block : ℕ) (y : BeatD W) (asked : Request) (t : Trace W) →
            KnowsState self.now n block t → IsResponse link.0 y asked t → outruns y (on_link link.0 t) ≡ true →
            early.asking_of (unfinished channel.A (on_link link.0 t)) ≡ Some asking.now → asked.block ≡ block →
            answered ≡ ends (beat.D y) (on_link link.0 t) →
            KnowsUnseen (with_next self.now next) n block (link, beat.D y) t) }
    {
        let mut outrun = Vec::new(alloc);
        outrun.push(OutrunAccess::new(link, asking, answered))?;
        append_outrun_but(&mut outrun, self.outrun.as_slice(), link, asking.source)?;
        let outrun = BoxedList::of(alloc, outrun)?;
        self.with_bytes(alloc, None, Some(outrun), Some((link, asking.source)))
    }

    /// The change by a beat with which the request and the answer of this access are both complete; `moment` is the
    /// number of beats before it. The error means that there is no memory left.
    pub fn settled(
        &self,
        alloc: Global,
        access: &OutrunAccess,
        moment: u64,
    ) -> Result<NextState<W>, AllocError>
        ensures { IfOk result (λ next. (n block : ℕ) (x : Link × Beat W) (t : Trace W) →
            KnowsState self.now n block t → IsSettlement access.now block x t → moment ≡ length t →
            KnowsUnseen (with_next self.now next) n block x t) }
    {
        let write = &access.write;
        let after = self.bytes.with(alloc, write, Standing::Anywhere, moment)?;
        let bytes = Box::new(alloc, after)?;
        let mut outrun = Vec::new(alloc);
        append_outrun_but(
            &mut outrun,
            self.outrun.as_slice(),
            access.link,
            access.source,
        )?;
        let outrun = BoxedList::of(alloc, outrun)?;
        self.with_bytes(alloc, Some(bytes), Some(outrun), None)
    }
}
