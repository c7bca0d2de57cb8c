//! Laws: the messages of all links of a world agree.

ghost use Rattle.tl_beat.specs.statement.Width.{IsWidth};
ghost use Rattle.tl_concord.specs.statement.Accesses.{CarriesAccesses};
ghost use Rattle.tl_concord.specs.statement.Beginnings.{Beginnings};
ghost use Rattle.tl_concord.specs.statement.Responses.{Responses};
ghost use Rattle.tl_concord.specs.statement.Told.{TellsOfMemory};
ghost use Rattle.tl_concord.specs.statement.WholeStores.{WholeStores};
ghost use Rattle.tl_concord.specs.statement.WritesBeside.{WritesBesideNoGrant};

/// Whatever happens to a manager and its clients, no response breaks M1 or M4: no Grant begins while another link
/// holds, or is being granted, a conflicting permission, and no answer to an access that couldn't be performed at any
/// moment.
pub fn begins_unbroken<const W: usize>()
    requires { IsWidth W }
    ensures { Beginnings W }
{}

/// All links carry the data of one memory: data that are granted or given back are those of memory. A block's bytes are
/// set with each Grant of it while no link holds it, and whenever Trunk of it is given up.
pub fn tells_of_one_memory<const W: usize>()
    requires { IsWidth W }
    ensures { TellsOfMemory W }
{}

/// All links carry the accesses that are open in the one memory: a beat of a request is of one that isn't performed, a
/// beat of an answer is of one that was, with its result.
pub fn carries_open_accesses<const W: usize>()
    requires { IsWidth W }
    ensures { CarriesAccesses W }
{}

/// A response goes on with the opcode and the source with which it began, no request comes with that source meanwhile,
/// and while a Grant is on its way no link holds Trunk of its block.
pub fn grants_undisturbed<const W: usize>()
    requires { IsWidth W }
    ensures { Responses W }
{}

/// The store of a whole block, which comes with the last beat of its Grant, leaves Trunk on its link.
pub fn stores_whole_blocks_under_trunk<const W: usize>()
    requires { IsWidth W }
    ensures { WholeStores W }
{}

/// An access that writes is performed while no Grant of its block is on its way.
pub fn writes_beside_no_grant<const W: usize>()
    requires { IsWidth W }
    ensures { WritesBesideNoGrant W }
{}
