ghost use Rattle.connection_ports.specs.Laws.{RefusalsLeave, OrdersAgree, SmallRoom};

/// Every refused creation and every refused close leaves everything as it was.
pub fn port_refusals_leave()
    ensures { RefusalsLeave }
{}

/// The two ports can be created in either order, with the same words in the end.
pub fn ports_in_either_order()
    ensures { OrdersAgree }
{}

/// The room that a small connection takes.
pub fn small_room()
    ensures { SmallRoom }
{}
