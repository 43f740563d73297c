//! What devices were before.

use std::marker::Brand;

/// What a disk and a link were when they began to be watched. A call of a function over such a type, at `Brand`, picks it.
pub trait Before {
    ghost use Rattle.pp_watch.specs.Done.{DiskBefore};
    ghost use Rattle.pp_watch.specs.Sent.{LinkBefore};

    ghost disk: { DiskBefore };

    ghost link: { LinkBefore };
}

impl Before for Brand {
    ghost use Rattle.pp_watch.specs.Done.{blank_disk};
    ghost use Rattle.pp_watch.specs.Sent.{blank_link};

    ghost disk = { blank_disk };

    ghost link = { blank_link };
}
