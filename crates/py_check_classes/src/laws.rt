//! The laws of headers. Each function is its clause, and does nothing when it runs.
ghost use Rattle.py_check_classes.specs.Laws.{HeadersAreSound, OrdersHangOnBases};

/// A class that has a type has bases with types and smaller numbers, by the rules on traits, and an order.
pub fn headers_are_sound()
    ensures { HeadersAreSound }
{}

/// The order of a class hangs on bases alone.
pub fn orders_hang_on_bases()
    ensures { OrdersHangOnBases }
{}
