// Which calls of a device are to be refused, and how many of their kind pass before.
ghost use Rattle.std.specs.Prelude.{◌≡◌, None};
ghost use Rattle.pp_outside.specs.Orders.{after_one};

use crate::Call;

// Of each kind of call the order that stands, if one does: how many calls pass before the one that is refused.
#[derive(Clone, Copy)]
pub(crate) struct Orders {
    attach: Option<u32>,
    len: Option<u32>,
    read: Option<u32>,
    write: Option<u32>,
    sync: Option<u32>,
    bind: Option<u32>,
    next: Option<u32>,
    send: Option<u32>,
}

impl Orders {
    ghost use Rattle.pp_outside.specs.Orders.{order_of, with_order, is_due};

    pub(crate) fn none() -> Orders
        ensures { (call : _) → order_of result call ≡ None }
    {
        Orders {
            attach: None,
            len: None,
            read: None,
            write: None,
            sync: None,
            bind: None,
            next: None,
            send: None,
        }
    }

    fn get(&self, call: Call) -> Option<u32>
        ensures { result ≡ order_of self.now call }
    {
        match call {
            Call::Attach => self.attach,
            Call::Len => self.len,
            Call::Read => self.read,
            Call::Write => self.write,
            Call::Sync => self.sync,
            Call::Bind => self.bind,
            Call::Next => self.next,
            Call::Send => self.send,
        }
    }

    pub(crate) fn set(&mut self, call: Call, to: Option<u32>)
        ensures { self.new ≡ with_order self.old call to }
    {
        match call {
            Call::Attach => self.attach = to,
            Call::Len => self.len = to,
            Call::Read => self.read = to,
            Call::Write => self.write = to,
            Call::Sync => self.sync = to,
            Call::Bind => self.bind = to,
            Call::Next => self.next = to,
            Call::Send => self.send = to,
        }
    }

    // Whether the call is to be refused, which uses its order up; else one call fewer passes.
    pub(crate) fn take(&mut self, call: Call) -> bool
        ensures was { result ≡ is_due (order_of self.old call) }
        ensures after { self.new ≡ with_order self.old call (after_one (order_of self.old call)) }
    {
        let order = self.get(call);
        self.set(call, without_one(order));
        order == Some(0)
    }
}

// An order after one call of its kind.
fn without_one(order: Option<u32>) -> Option<u32>
    ensures { result ≡ after_one order }
{
    match order {
        Some(passed) => passed.checked_sub(1),
        None => None,
    }
}
