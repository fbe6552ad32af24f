ghost use Rattle.std.specs.Prelude.{◌≡◌};
ghost use Rattle.order.specs.Orders.{stock_order, plain_order};

use super::super::cells::Cells;
use super::Order;

impl Order {
    /// An order that names no field.
    pub fn plain() -> Order
        ensures { stock_order result ≡ plain_order }
    {
        Order {
            class: 4,
            code: 1,
            argument: 0,
            reads: Cells::new(),
            writes: Cells::new(),
        }
    }
}
