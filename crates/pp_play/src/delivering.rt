// What a peer sent, on its way.
ghost use Rattle.std.specs.Prelude.{◌≡◌, drop, length, reverse, OnOk};
ghost use Rattle.pp_outside.specs.MemoryLink.{in_order};
ghost use Rattle.pp_play.specs.Stage.{mail_after};

use pp_mail::Mail;
use pp_outside::{Mark, MemoryLink};
use std::alloc::AllocError;

// Takes what a peer sent since its link had so many records.
pub(crate) fn deliver(
    mail: &mut Mail,
    sender: u8,
    link: &MemoryLink,
    from: usize,
) -> Result<(), AllocError>
    ensures sent { OnOk result (mail.new ≡ mail_after sender (reverse (drop from (in_order link.now))) mail.old) }
    ensures count { length mail.new ≡ length mail.old }
{
    for n in from..link.marks() {
        match link.mark(n) {
            Mark::Sent { to, .. } => mail.deliver(sender, &to, link.mark_bytes(n))?,
            Mark::Received { .. } => {}
            Mark::Quiet { .. } => {}
        }
    }
    Ok(())
}
