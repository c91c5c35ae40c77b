//! Whether an image is consistent: refcounts, references and copied flags agree.

ghost use Rattle.std.specs.Prelude.{◌≡◌, ◌⊎◌, ◌↔◌, [], Err, IfErr, IfOk, IsOkAnd, IsTrue};
ghost use Rattle.qcow2_base.specs.Storage.{OnImage, OnlyReads};
ghost use Rattle.qcow2_metadata.specs.Results.{IsFromOutside};
ghost use Rattle.qcow2_summary.specs.Consistency.{Judges};
ghost use Rattle.qcow2_metadata.specs.Table.{IsContentFault};
ghost use Rattle.qcow2_check.specs.Findings.{IsBegun, IsCheckFault, IsFindingsOf, IsLaterFault, checked_tables, tables_of};
ghost use Rattle.qcow2_check.specs.Flags.{IsFlagsOf, flags_left};

use qcow2_base::{Fault, Storage};
use qcow2_check::{Findings, Flags};
use qcow2_metadata::Header;
use std::alloc::Global;

/// Returns whether an image with this header is consistent: each cluster's refcount is its number of
/// references, no references to a cluster exclude each other, and no copied flag is wrong. Doesn't look where
/// the image's file ends.
///
/// Returns the fault of `Findings::new`. Changes no byte.
pub fn is_consistent<S: Storage>(
    alloc: Global,
    image: &mut S,
    header: &Header,
) -> Result<bool, Fault>
    ensures consistent { IfOk result (λ answer. OnImage (S.state image.old) (λ bytes.
        IsOkAnd (checked_tables header.now bytes) (λ tables. Judges answer tables bytes))) }
    ensures refused { IfErr result (λ fault. OnImage (S.state image.old) (λ bytes.
        IsFromOutside fault ⊎ (checked_tables header.now bytes ≡ Err fault))) }
    ensures faults { IfErr result (λ fault. IsCheckFault header.now fault ⊎ IsContentFault fault) }
    ensures storage { OnlyReads result (S.state image.old) (S.state image.new) }
{
    let findings = Findings::new(alloc, image, header)?;
    all_is_right(findings, image)
}

// Whether an image has no finding and no wrong copied flag, by a reader before its first finding. Frees the
// reader's memory.
fn all_is_right<S: Storage>(mut findings: Findings<'_>, image: &mut S) -> Result<bool, Fault>
    requires begun { IsBegun findings }
    requires reader { OnImage (S.state image.old) (λ bytes. IsFindingsOf bytes findings) }
    ensures judged { IfOk result (λ answer. OnImage (S.state image.old)
        (Judges answer (tables_of findings.entry))) }
    ensures fault { IfErr result (IsLaterFault (S.state image.old)) }
    ensures storage { OnlyReads result (S.state image.old) (S.state image.new) }
{
    if findings.next(image)?.is_some() {
        return Ok(false);
    }
    no_flag_is_left(findings.into_flags(), image)
}

// Whether a reader of wrong copied flags has none left. Frees its memory too.
fn no_flag_is_left<S: Storage>(mut flags: Flags<'_>, image: &mut S) -> Result<bool, Fault>
    requires { OnImage (S.state image.old) (λ bytes. IsFlagsOf bytes flags) }
    ensures left { IfOk result (λ answer. OnImage (S.state image.old) (λ bytes.
        IsTrue answer ↔ (flags_left flags.entry bytes ≡ []))) }
    ensures fault { IfErr result (IsLaterFault (S.state image.old)) }
    ensures storage { OnlyReads result (S.state image.old) (S.state image.new) }
{
    Ok(flags.next(image)?.is_none())
}
