// What a folder asks of its link when it starts, and what decides.
ghost use Rattle.std.specs.Prelude.{◌≡◌, false, true, IfSome, IsNone, Ok, Err};
ghost use Rattle.vb_msg.specs.Ranges.{are_zeros};
ghost use Rattle.vb_core.specs.Greetings.{link_seen, AnswersShown, Asks, GoesWith, Greets, IsOfShown, SendsClaim, start_error_of};

use crate::StartError;
use vb_head::Head;
use vb_link::{Link, LinkError, ViewInfo};
use vb_msg::{CloudId, Msg};

/// Asks the link what it shows, and claims the cloud where it has no name. It answers the epoch that the cloud shows.
pub(crate) fn greet<K: Link>(head: &Head, link: &mut K) -> Result<u64, StartError>
    requires { are_zeros head.now.id ≡ false }
    ensures { Greets head.now
        (link_seen (K.told link.old) (K.shown link.old) (K.faults link.old) (K.failures_left link.old) (K.calls link.old) (K.sends link.old))
        (link_seen (K.told link.new) (K.shown link.new) (K.faults link.new) (K.failures_left link.new) (K.calls link.new) (K.sends link.new))
        result }
{
    let info = match ask(link) {
        Ok(info) => info,
        Err(error) => return Err(start_error(error)),
    };
    if let Some(why) = refusal_by(head, &info) {
        return Err(why);
    }
    if CloudId::of(info.id).is_some() {
        return Ok(info.epoch);
    }
    match claim(head, link) {
        Ok(()) => Ok(info.epoch),
        Err(error) => Err(start_error(error)),
    }
}

// Asks the link what it shows.
fn ask<K: Link>(link: &mut K) -> Result<ViewInfo, LinkError>
    ensures { Asks
        (link_seen (K.told link.old) (K.shown link.old) (K.faults link.old) (K.failures_left link.old) (K.calls link.old) (K.sends link.old))
        (link_seen (K.told link.new) (K.shown link.new) (K.faults link.new) (K.failures_left link.new) (K.calls link.new) (K.sends link.new))
        result }
{
    link.describe()
}

// Why a store doesn't go with what its cloud shows, where it doesn't.
fn refusal_by(head: &Head, info: &ViewInfo) -> Option<StartError>
    ensures refused { IfSome result (λ why. AnswersShown head.now info.now (Err why)) }
    ensures of_shown { IfSome result IsOfShown }
    ensures none { IsNone result → GoesWith head.now info.now }
{
    if head.id != info.id && CloudId::of(info.id).is_some() {
        return Some(StartError::Foreign {
            local: head.id,
            cloud: info.id,
        });
    }
    if head.epoch < info.epoch {
        return Some(StartError::Behind {
            local: head.epoch,
            published: info.epoch,
        });
    }
    None
}

// Claims the cloud.
fn claim<K: Link>(head: &Head, link: &mut K) -> Result<(), LinkError>
    requires { are_zeros head.now.id ≡ false }
    ensures { SendsClaim head.now
        (link_seen (K.told link.old) (K.shown link.old) (K.faults link.old) (K.failures_left link.old) (K.calls link.old) (K.sends link.old))
        (link_seen (K.told link.new) (K.shown link.new) (K.faults link.new) (K.failures_left link.new) (K.calls link.new) (K.sends link.new))
        result }
{
    let Some(id) = CloudId::of(head.id) else {
        unreachable!()
    };
    link.send(&Msg::Claim { id })
}

// What the error of a link is to a start.
fn start_error(error: LinkError) -> StartError
    ensures { result ≡ start_error_of error }
{
    match error {
        LinkError::Memory => StartError::Memory,
        LinkError::Failed | LinkError::Refused(_) => StartError::LinkFault,
    }
}
