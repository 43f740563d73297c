// The calls that a device may be ordered to refuse.
ghost use Rattle.std.specs.Prelude.{◌≡◌};

/// A call of a disk (the first five) or of a link.
#[derive(Clone, Copy, Debug, PartialEq, Eq)]
pub enum Call {
    Attach,
    Len,
    Read,
    Write,
    Sync,
    Bind,
    Next,
    Send,
}

impl Call {
    ghost use Rattle.pp_outside.specs.Orders.{is_disk_call};

    pub(crate) fn is_of_disk(self) -> bool
        ensures { result ≡ is_disk_call self }
    {
        match self {
            Call::Attach | Call::Len | Call::Read | Call::Write | Call::Sync => true,
            Call::Bind | Call::Next | Call::Send => false,
        }
    }
}
