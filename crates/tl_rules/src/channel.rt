//! The L rules of each channel over single fields: first those of the control fields, which the beats of a burst share,
//! then those of the fields that each beat has of its own.

ghost use Rattle.std.specs.Prelude.{◌≡◌, ◌<◌, ◌≤◌, ◌^◌, IsTrue, OnOk};
ghost use Rattle.tl_params.specs.statement.Refusal.{ok_unless};
ghost use Rattle.tl_beat.specs.statement.Width.{IsWidth};
ghost use Rattle.tl_rules.specs.statement.Legality.{is_aligned};
ghost use Rattle.tl_rules.specs.code.Control.{a_control, b_control, c_control, d_control};
ghost use Rattle.tl_rules.specs.code.Control.{a_own, b_own, c_own, d_own};

use crate::{field, mask};
use tl_beat::opcode::{OpA, OpB, OpC, OpD};
use tl_params::level::Level;
use tl_params::param::Cap;
use tl_params::rule::Rule;

/// Checks L1 to L4 of channel A. The error is the first of them that the fields break, here and below.
pub fn control_of_a<const W: usize>(
    level: Level,
    opcode: OpA,
    param: u8,
    size: u8,
    address: u32,
) -> Result<(), Rule>
    requires { IsWidth W }
    ensures value { result ≡ ok_unless (a_control W level opcode param size address) }
    ensures small { OnOk result (size ≤ 6) }
    ensures aligned { OnOk result (IsTrue (is_aligned address size)) }
{
    if !field::a_opcode_fits(level, opcode) {
        return Err(Rule::L1);
    }
    if !field::a_param_fits(opcode, param) {
        return Err(Rule::L2);
    }
    if !field::a_size_fits::<W>(level, opcode, size) {
        return Err(Rule::L3);
    }
    if !field::address_fits(address, size) {
        return Err(Rule::L4);
    }
    Ok(())
}

/// Checks L5 and L6 of channel A.
pub fn own_of_a<const W: usize>(
    opcode: OpA,
    size: u8,
    address: u32,
    mask: u16,
    corrupt: bool,
) -> Result<(), Rule>
    requires width { IsWidth W }
    requires small { size ≤ 6 }
    ensures value { result ≡ ok_unless (a_own W opcode size address mask corrupt) }
    ensures narrow { IsTrue (is_aligned address size) → OnOk result (mask < 2 ^ W) }
{
    let fits = match opcode {
        OpA::PutPartialData => mask::is_part::<W>(size, address, mask),
        _ => mask::is_full::<W>(size, address, mask),
    };
    if !fits {
        return Err(Rule::L5);
    }
    if corrupt && !opcode.carries_data() {
        return Err(Rule::L6);
    }
    Ok(())
}

/// Checks L1, L7, L2, L3 and L4 of channel B.
pub fn control_of_b(
    level: Level,
    opcode: OpB,
    param: u8,
    size: u8,
    source: u8,
    address: u32,
) -> Result<(), Rule>
    ensures value { result ≡ ok_unless (b_control level opcode param size source address) }
    ensures small { OnOk result (size ≤ 6) }
    ensures aligned { OnOk result (IsTrue (is_aligned address size)) }
{
    if !field::transfers(level) {
        return Err(Rule::L1);
    }
    if !matches!(opcode, OpB::ProbeBlock | OpB::ProbePerm) {
        return Err(Rule::L7);
    }
    if Cap::from_param(param).is_none() || source != 0 {
        return Err(Rule::L2);
    }
    if size != 6 {
        return Err(Rule::L3);
    }
    if !field::address_fits(address, size) {
        return Err(Rule::L4);
    }
    Ok(())
}

/// Checks L5 and L6 of channel B.
pub fn own_of_b<const W: usize>(
    opcode: OpB,
    size: u8,
    address: u32,
    mask: u16,
    corrupt: bool,
) -> Result<(), Rule>
    requires width { IsWidth W }
    requires small { size ≤ 6 }
    ensures value { result ≡ ok_unless (b_own W opcode size address mask corrupt) }
    ensures narrow { IsTrue (is_aligned address size) → OnOk result (mask < 2 ^ W) }
{
    if !mask::is_full::<W>(size, address, mask) {
        return Err(Rule::L5);
    }
    if corrupt && !opcode.carries_data() {
        return Err(Rule::L6);
    }
    Ok(())
}

/// Checks L1, L7, L2, L3 and L4 of channel C.
pub fn control_of_c(
    level: Level,
    opcode: OpC,
    param: u8,
    size: u8,
    source: u8,
    address: u32,
) -> Result<(), Rule>
    ensures value { result ≡ ok_unless (c_control level opcode param size source address) }
    ensures small { OnOk result (size ≤ 6) }
{
    if !field::transfers(level) {
        return Err(Rule::L1);
    }
    if matches!(opcode, OpC::AccessAck | OpC::AccessAckData | OpC::HintAck) {
        return Err(Rule::L7);
    }
    if !field::c_param_fits(opcode, param) || !field::c_source_fits(opcode, source) {
        return Err(Rule::L2);
    }
    if size != 6 {
        return Err(Rule::L3);
    }
    if !field::address_fits(address, size) {
        return Err(Rule::L4);
    }
    Ok(())
}

/// Checks L6 of channel C.
pub fn own_of_c(opcode: OpC, corrupt: bool) -> Result<(), Rule>
    ensures { result ≡ ok_unless (c_own opcode corrupt) }
{
    if corrupt && !opcode.carries_data() {
        return Err(Rule::L6);
    }
    Ok(())
}

/// Checks L1 to L3 of channel D.
pub fn control_of_d<const W: usize>(
    level: Level,
    opcode: OpD,
    param: u8,
    size: u8,
    sink: u8,
) -> Result<(), Rule>
    requires { IsWidth W }
    ensures value { result ≡ ok_unless (d_control W level opcode param size sink) }
    ensures small { OnOk result (size ≤ 6) }
{
    if !field::d_opcode_fits(level, opcode) {
        return Err(Rule::L1);
    }
    if !field::d_param_fits(opcode, param) || !field::d_sink_fits(opcode, sink) {
        return Err(Rule::L2);
    }
    if !field::d_size_fits::<W>(level, opcode, size) {
        return Err(Rule::L3);
    }
    Ok(())
}

/// Checks L6 of channel D.
pub fn own_of_d(opcode: OpD, denied: bool, corrupt: bool) -> Result<(), Rule>
    ensures { result ≡ ok_unless (d_own opcode denied corrupt) }
{
    if corrupt && !opcode.carries_data() || denied && !field::may_be_denied(opcode, corrupt) {
        return Err(Rule::L6);
    }
    Ok(())
}
