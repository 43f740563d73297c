// Laws on lists of requests.
ghost use Rattle.pp_requests.specs.Calls.{CallsStand, ListsAreAsked};

/// What calls make of a list of requests. It does nothing.
pub fn laws_of_requests()
    ensures calls { CallsStand }
    ensures lists { ListsAreAsked }
{}
